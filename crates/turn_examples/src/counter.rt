ghost use Rattle.std.specs.Prelude.{◌≡◌, ℕ, ◌+◌, ◌≤◌, ◌^◌, [], length, OnOk, OnErr, Err};
ghost use Rattle.turn_examples.specs.declared.counter.AddFault.TheVariants.{TooMuch};
ghost use Rattle.turn_examples.specs.Counting.{Adds, total_of};

use history_spec::Stamp;
use std::alloc::Global;
use std::marker::Model;

/// An amount that was added, and in whose turn.
#[derive(Drop)]
pub struct Amount {
    pub by: Stamp,
    pub amount: u64,
}

/// Why an amount was not added.
#[derive(Clone, Copy, Debug, PartialEq, Eq, Drop)]
pub enum AddFault {
    /// The total would not fit a u64.
    TooMuch,
    NoMemory,
}

/// A counter with all that was added to it. Contracts see it as the list of these amounts.
#[derive(Drop)]
pub struct Counter {
    total: u64,
    amounts: Vec<Amount>,
}

impl Model for Counter {
    ghost use Rattle.std.specs.Prelude.{◌≡◌, List};
    ghost use Rattle.turn_examples.specs.declared.counter.Amount.{Amount};
    ghost use Rattle.turn_examples.specs.Counting.{total_of};

    ghost Value = { List Amount };

    ghost view = { λ c. c.amounts.items };

    ghost invariant = { λ c. c.total ≡ total_of c.amounts.items };
}

impl Counter {
    /// A counter to which nothing was added.
    pub fn new(alloc: Global) -> Counter
        ensures { result ≡ [] }
    {
        Counter {
            total: 0,
            amounts: Vec::new(alloc),
        }
    }

    /// Adds an amount, in the turn of the pass of this number.
    pub fn add(&mut self, amount: u64) -> Result<(), AddFault>
        ghost number: { ℕ }
        ensures ok { OnOk result (Adds number amount self.old self.new) }
        ensures err { OnErr result (self.new ≡ self.old) }
        ensures too_much { result ≡ Err TooMuch → 2 ^ 64 ≤ total_of self.old + amount }
    {
        let Some(total) = self.total.checked_add(amount) else {
            return Err(AddFault::TooMuch);
        };
        if self.amounts.reserve(1).is_err() {
            return Err(AddFault::NoMemory);
        }
        let by = Stamp::named();
        self.amounts.push_reserved(Amount { by, amount });
        self.total = total;
        Ok(())
    }

    /// The total of what was added.
    pub fn total(&self) -> u64
        ensures { result ≡ total_of self.now }
    {
        self.total
    }

    /// How many amounts were added.
    pub fn len(&self) -> usize
        ensures { result ≡ length self.now }
    {
        self.amounts.len()
    }
}
