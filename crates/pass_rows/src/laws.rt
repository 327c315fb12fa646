//! What is known of rows that were put together. The functions do nothing; proofs use what they promise.
ghost use Rattle.pass_rows.specs.Closing.{AllClose, PartsAddUp, RowsGather};

use turn_cell::Kept;

/// Whoever closes a cell with the one pass that all its passes became, knows of each of them what it has seen and done.
pub fn all_close<T: Kept>()
    ensures { AllClose T.meaning }
{}

/// The one pass has the parts of all.
pub fn parts_add_up<T: Kept>()
    ensures { PartsAddUp T.meaning }
{}

/// Where rows became one, so did the passes of each cell.
pub fn rows_gather<L: Kept, S: Kept, D: Kept, G>()
    ensures { RowsGather L.meaning S.meaning D.meaning G }
{}
