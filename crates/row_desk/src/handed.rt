// What a desk is handed when it is made.
ghost use Rattle.std.specs.Prelude.{ℕ};
ghost use Rattle.row_desk.specs.Views.{StorePass, no_pass};

use std::marker::Brand;

/// What a desk is handed when it is made: a type, so that it lasts through the calls of others. Whoever makes a desk names
/// it.
pub trait Handed {
    // The row's pass of the store.
    ghost store: { StorePass };

    // How often the row's maker could not make a guest.
    ghost faults: { ℕ };
}

impl Handed for Brand {
    ghost store = { no_pass };

    ghost faults = { 0 };
}
