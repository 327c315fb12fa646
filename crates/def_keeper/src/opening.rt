// What is taken for true of a store when it is opened.
use std::marker::Brand;

/// What is taken for true of a store when it is opened: a type, so that it lasts through the turns of
/// a cell. Whoever opens a store names it.
pub trait Opening {
    ghost sound: { Type 0 };
}

impl Opening for Brand {
    ghost sound = { ⊥ };
}
