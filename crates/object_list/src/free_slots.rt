// Which slots are free, a bit for each.
ghost use Rattle.std.specs.Prelude.{◌≡◌, ◌≢◌, ℕ, ◌<◌, IfSome, IfNone, position, true};
ghost use Rattle.object_list.specs.FreeSlots.{free_bit, is_set, IsLeastFree, IsLowest, NoneIsFree, ChangesBit};

use std::marker::Model;

/// The slots of the list that are free. A slot's bit is 1 where it is.
#[derive(Drop)]
pub struct FreeSlots {
    words: [u64; 4],
}

impl Model for FreeSlots {
    ghost use Rattle.std.specs.Prelude.{◌≡◌, ℕ, List, length};

    ghost Value = { List ℕ };

    ghost view = { λ f. f.words };

    ghost invariant = { λ f. length f.words ≡ 4 };
}

impl FreeSlots {
    /// All slots are free.
    pub(crate) fn all() -> FreeSlots
        ensures { (slot : ℕ) → slot < 256 → free_bit result slot ≡ 1 }
    {
        FreeSlots {
            words: [u64::MAX; 4],
        }
    }

    /// The least free slot.
    pub(crate) fn least(&self) -> Option<u32>
        ensures some { IfSome result (IsLeastFree self.now) }
        ensures none { IfNone result (NoneIsFree self.now) }
    {
        match first_set(&self.words) {
            None => None,
            Some(place) => Some(place as u32 * 64 + lowest(self.words[place])),
        }
    }

    /// Takes a slot.
    pub(crate) fn take(&mut self, slot: u32)
        requires { slot < 256 }
        ensures { ChangesBit slot 0 self.old self.new }
    {
        let place = (slot / 64) as usize;
        self.words[place] = self.words[place] & !(1 << (slot % 64));
    }

    /// Gives a slot back.
    pub(crate) fn give(&mut self, slot: u32)
        requires { slot < 256 }
        ensures { ChangesBit slot 1 self.old self.new }
    {
        let place = (slot / 64) as usize;
        self.words[place] = self.words[place] | (1 << (slot % 64));
    }
}

fn is_some_set(word: u64) -> bool
    ensures { result ≡ is_set word }
{
    word > 0
}

// The first word that has a bit set.
fn first_set(words: &[u64]) -> Option<usize>
    ensures { result ≡ position is_set words.now }
{
    words.iter().position(|word| is_some_set(*word))
}

// The lowest bit that is set.
fn lowest(word: u64) -> u32
    requires { is_set word ≡ true }
    ensures { IsLowest word result }
{
    word.trailing_zeros()
}
