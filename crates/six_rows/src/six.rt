// Six rows of a list, as many as one session takes.
ghost use Rattle.std.specs.Prelude.{◌≡◌, ◌≤◌, ◌+◌, ◌++◌, length};
ghost use Rattle.six_rows.specs.Six.{all_six};

use pass_rows::{RowListOf, RowOf};
use row_session::SixRows;
use turn_cell::Kept;

/// Takes the last six rows of a list, in order. It then has room for six more.
pub fn take_six<L: Kept, S: Kept, D: Kept, G>(
    rows: &mut RowListOf<L, S, D, G>,
) -> SixRows<RowOf<L, S, D, G>>
    requires { 6 ≤ length rows.old.list }
    ensures list { rows.old.list ≡ rows.new.list ++ all_six result }
    ensures room { rows.new.room ≡ rows.old.room + 6 }
{
    let sixth = rows.pop().unwrap();
    let fifth = rows.pop().unwrap();
    let fourth = rows.pop().unwrap();
    let third = rows.pop().unwrap();
    let second = rows.pop().unwrap();
    let first = rows.pop().unwrap();
    SixRows {
        first,
        second,
        third,
        fourth,
        fifth,
        sixth,
    }
}

/// Puts six rows after the others, in order, into room that is there.
pub fn put_six<L: Kept, S: Kept, D: Kept, G>(
    rows: &mut RowListOf<L, S, D, G>,
    six: SixRows<RowOf<L, S, D, G>>,
)
    requires { 6 ≤ rows.old.room }
    ensures list { rows.new.list ≡ rows.old.list ++ all_six six }
    ensures room { rows.new.room + 6 ≡ rows.old.room }
{
    let SixRows {
        first,
        second,
        third,
        fourth,
        fifth,
        sixth,
    } = six;
    rows.push(first);
    rows.push(second);
    rows.push(third);
    rows.push(fourth);
    rows.push(fifth);
    rows.push(sixth);
}
