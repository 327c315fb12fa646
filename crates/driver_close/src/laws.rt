// Laws of rows that are all rows of a driver: each function's contract is one, and its body does nothing.
ghost use Rattle.driver_close.specs.Laws.{KeepersStayWhole, OpenedIsWhole, SplitIsWhole};

use files_disk::Files;

/// The row with which a driver was opened is all of its rows.
pub fn opened_row_is_whole<F: Files, G>()
    ensures { OpenedIsWhole F.told G }
{}

/// Where each of all rows keeps the parts that its passes have, as a call of the driver does, they are all rows still.
pub fn keepers_stay_whole<G>()
    ensures { KeepersStayWhole G }
{}

/// What the only row becomes where it is split are all rows.
pub fn split_row_is_whole<F: Files, G>()
    ensures { SplitIsWhole F.told G }
{}
