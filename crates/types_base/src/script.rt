// The script of a modelled guest: what the guest does at which command.
use crate::copy::TryCopy;
use crate::list::ListOf;
use crate::memory::NoMemory;
use crate::text::Text;

/// What a guest does in place of an answer.
#[derive(Clone, Copy, Debug, PartialEq, Eq)]
pub enum ScriptAct {
    /// It ends, as crashed.
    End,
    /// It refuses the command.
    Refuse,
    /// Its link is lost.
    Lost,
}

/// One entry of a script.
#[derive(Clone, Copy, Debug, PartialEq, Eq)]
pub enum ScriptEntry {
    /// `boot B command C ACT`.
    At {
        /// The number of the boot in its cell, from 1 and below 2^62.
        boot: u64,
        /// The number of the command in the boot, from 1 and below 2^62.
        command: u64,
        /// What the guest does there.
        act: ScriptAct,
    },
    /// `slow N`: how many polls a copy of its state takes, 0 to 1,000,000.
    Slow(u64),
    /// `stall`: no poll takes one off.
    Stall,
}

impl TryCopy for ScriptEntry {
    fn copy(&self) -> Result<ScriptEntry, NoMemory> {
        Ok(*self)
    }
}

/// Entries of a script in order.
pub type ScriptEntryList = ListOf<ScriptEntry>;

/// A script, kept as it was read, beside what it says. The empty one means none.
#[derive(Drop)]
pub struct Script {
    /// The text as read, without blanks at its ends. It is printed again as it is.
    pub text: Text,
    /// What the text says.
    pub entries: ScriptEntryList,
}

impl TryCopy for Script {
    fn copy(&self) -> Result<Script, NoMemory> {
        Ok(Script {
            text: self.text.copy()?,
            entries: self.entries.copy()?,
        })
    }
}
