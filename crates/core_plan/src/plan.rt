// A plan that is being made.
ghost use Rattle.std.specs.Prelude.{◌≡◌, ◌+◌, ◌++◌, ◌∷◌, [], IfSome, OnErr, OnOk, length};
ghost use Rattle.core_plan.specs.Along.{most_asks};

use domain_spec::PlannedAsk;
use std::alloc::Global;
use std::collections::VecDeque;
use std::marker::Model;
use virt_types::NoMemory;

/// A plan that is being made, one ask after the other.
#[derive(Drop)]
pub struct Plan {
    asks: VecDeque<PlannedAsk>,
    // How many asks are made of it at most.
    most: usize,
}

impl Model for Plan {
    ghost use Rattle.std.specs.Prelude.{◌≡◌, List};
    ghost use Rattle.domain_spec.specs.declared.planned.PlannedAsk.{PlannedAsk};
    ghost use Rattle.core_plan.specs.Along.{most_asks};

    ghost Value = { List PlannedAsk };

    ghost view = { λ p. p.asks.items };

    ghost invariant = { λ p. p.most ≡ most_asks p.asks.items };
}

// So many asks, one more, and those that undo it.
fn counted(most: usize, undo: usize) -> Option<usize>
    ensures { IfSome result (λ n. n ≡ most + (1 + undo)) }
{
    most.checked_add(1)?.checked_add(undo)
}

// Puts a value last. Where there is no memory nothing changes.
fn put_last(queue: &mut VecDeque<PlannedAsk>, last: PlannedAsk) -> Result<(), NoMemory>
    ensures ok { OnOk result (queue.new.items ≡ queue.old.items ++ last ∷ []) }
    ensures err { OnErr result (queue.new.items ≡ queue.old.items) }
{
    match queue.push_back(last) {
        Ok(()) => Ok(()),
        Err(full) => {
            drop(full);
            Err(NoMemory)
        }
    }
}

impl Plan {
    /// Nothing is planned yet.
    pub fn new(alloc: Global) -> Plan
        ensures { result ≡ [] }
    {
        Plan {
            asks: VecDeque::new(alloc),
            most: 0,
        }
    }

    /// One more ask, after the others. Where there is no memory nothing changes.
    #[tactic(auto, using(crate::proofs::Courses::most_more))]
    pub fn push(&mut self, planned: PlannedAsk) -> Result<(), NoMemory>
        ensures ok { OnOk result (self.new ≡ self.old ++ planned ∷ []) }
        ensures err { OnErr result (self.new ≡ self.old) }
    {
        match counted(self.most, planned.undo.len()) {
            None => {
                drop(planned);
                Err(NoMemory)
            }
            Some(most) => match put_last(&mut self.asks, planned) {
                Ok(()) => {
                    self.most = most;
                    Ok(())
                }
                Err(e) => Err(e),
            },
        }
    }

    /// How many asks are planned.
    pub fn len(&self) -> usize
        ensures { result ≡ length self.now }
    {
        self.asks.len()
    }

    /// The planned asks, and how many of them and of what undoes them are made at most.
    pub fn into_parts(self) -> (VecDeque<PlannedAsk>, usize)
        ensures plan { result.0.items ≡ self }
        ensures most { result.1 ≡ most_asks self }
    {
        let Plan { asks, most } = self;
        (asks, most)
    }
}
