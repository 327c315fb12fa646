// What a check says.
ghost use Rattle.std.specs.Prelude.{◌≡◌};
ghost use Rattle.store_check.specs.Checking.{status};

use types_base::{Fault, Text};

/// What a check of a store says.
#[derive(Debug, Drop)]
pub struct Checked {
    /// What is printed: a line for each definition's file, and then for each status file.
    pub text: Text,
    /// The first file that is damaged.
    pub damaged: Option<Text>,
}

/// The status of the program that checks a store: 0 where all files are good, 6 where one is damaged, 4 where the
/// store failed, and 12 where there was no memory.
pub fn status_of(checked: &Result<Checked, Fault>) -> u8
    ensures { result ≡ status checked.now }
{
    match checked {
        Ok(checked) => match &checked.damaged {
            None => 0,
            Some(_) => 6,
        },
        Err(Fault::Failed) => 4,
        Err(Fault::NoMemory) => 12,
    }
}
