// The row of a story: what its threads were told, with the marks that the pass of each left.
use crate::counting::count_of;
use crate::row::Row;
use domain_spec::Mark;
use domain_threads::Chronicle;
use history_spec::Stamp;
use std::alloc::Global;

// After what a thread was told comes how many marks its pass left.
fn put_marks(said: &mut [Row], marks: &[Mark<Stamp>]) {
    let mut session: u64 = 0;
    for one in said {
        session = session.saturating_add(1);
        one.put_number(count_of(marks, Some(session)));
    }
}

// What each thread was told.
fn put_each(row: &mut Row, said: &[Row], after: &str) {
    for one in said {
        row.put(one.as_str());
        row.put(after);
    }
}

// How many threads were told each of these.
fn put_counted(row: &mut Row, said: &[Row], kinds: &[&str]) {
    for told in kinds {
        let mut count: u64 = 0;
        for one in said {
            if one.as_str() == *told {
                count = count.saturating_add(1);
            }
        }
        row.put_number(count);
        row.put(" times ");
        row.put(*told);
        row.put("; ");
    }
}

/// The row of a story. Where many threads do the same, how many of them were told each of these kinds. Where there is no
/// history, since a pass did not come back, what they were told.
pub(crate) fn told(
    alloc: Global,
    said: Vec<Row>,
    history: &Option<Chronicle>,
    kinds: &[&str],
) -> Row {
    let mut row = Row::new(alloc);
    let mut said = said;
    match history {
        Some(history) => {
            let marks = history.marks.as_slice();
            put_marks(said.as_mut_slice(), marks);
            if kinds.is_empty() {
                put_each(&mut row, said.as_slice(), "; ");
            } else {
                put_counted(&mut row, said.as_slice(), kinds);
            }
            row.put("of the guest ");
            row.put_number(count_of(marks, None));
        }
        None => {
            put_each(&mut row, said.as_slice(), "");
            row.put("a pass is lost");
        }
    }
    row
}
