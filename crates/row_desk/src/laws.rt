// Laws of what a desk was asked: the contract of the function is one, and its body does nothing.
ghost use Rattle.row_desk.specs.Laws.{StoreAsksHaveMarks};

use files_disk::Files;

/// Whatever the store answered has its mark among those that the pass left since the desk was made.
pub fn store_asks_have_marks<F: Files>()
    ensures { StoreAsksHaveMarks F.told }
{}
