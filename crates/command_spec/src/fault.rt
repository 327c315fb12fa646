// Where words are those of no command.
use thiserror::Error;
use virt_types::OrNoMemory;

/// Words that are no command line.
#[derive(Clone, Copy, Debug, PartialEq, Eq, Error)]
#[error("word {at} fits no command")]
pub struct WordFault {
    /// The number of the first word with which no command line goes on, counted from 0; where a word
    /// is missing at the end, how many words there are.
    pub at: u64,
}

impl From<WordFault> for OrNoMemory<WordFault> {
    ghost use Rattle.std.specs.Prelude.{◌≡◌};
    ghost use Rattle.virt_types.specs.Below.types_base.declared.memory.OrNoMemory.TheVariants as or;

    ghost from_gives = { λ fault e. e ≡ or.Fault fault };

    fn from(fault: WordFault) -> OrNoMemory<WordFault> {
        OrNoMemory::Fault(fault)
    }
}
