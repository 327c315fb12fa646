// Attributes: names with values.
ghost use Rattle.std.specs.Prelude.{◌≡◌, ◌++◌, ◌∷◌, [], length, OnOk, OnErr};
ghost use Rattle.text_spec.specs.declared.pair.Pair.{Pair};

use std::alloc::Global;
use std::marker::Model;
use types_base::{NoMemory, Text};

/// An attribute of an element.
#[derive(Debug, Drop)]
pub struct Pair {
    /// Its name.
    pub name: Text,
    /// Its value, without quotes and with each reference replaced.
    pub value: Text,
}

/// Attributes in their order, which contracts see as their list.
#[derive(Debug, Drop)]
pub struct PairList {
    pairs: Vec<Pair>,
}

impl Model for PairList {
    ghost use Rattle.std.specs.Prelude.{List};
    ghost use Rattle.text_spec.specs.declared.pair.Pair.{Pair};

    ghost Value = { List Pair };

    ghost view = { λ list. list.pairs.items };
}

impl PairList {
    /// No attributes.
    pub fn new(alloc: Global) -> PairList
        ensures { result ≡ [] }
    {
        PairList {
            pairs: Vec::new(alloc),
        }
    }

    /// Adds one at the end.
    pub fn push(&mut self, pair: Pair) -> Result<(), NoMemory>
        ensures ok { OnOk result (self.new ≡ self.old ++ pair ∷ []) }
        ensures err { OnErr result (self.new ≡ self.old) }
    {
        self.pairs.push(pair)?;
        Ok(())
    }

    /// The attributes.
    pub fn as_slice(&self) -> &[Pair]
        ensures { result.now ≡ self.now }
    {
        self.pairs.as_slice()
    }

    /// How many there are.
    pub fn len(&self) -> usize
        ensures { result ≡ length self.now }
    {
        self.pairs.len()
    }
}
