// What is found when a store is opened.
ghost use Rattle.std.specs.Prelude.{◌≡◌};

use store_spec::Change;
use thiserror::Error;
use types_base::{DomainDef, ListOf, Text, Uuid};

/// A domain that the store held when it was opened.
pub struct FoundDomain {
    /// Its identifier, which its definition has too.
    pub uuid: Uuid,
    /// Its definition.
    pub definition: DomainDef,
    /// Whether the daemon starts it when it starts itself.
    pub autostart: bool,
}

impl Drop for FoundDomain {
    fn drop(self) {
        let FoundDomain {
            uuid: _,
            definition: _,
            autostart: _,
        } = self;
    }
}

/// What a store held when it was opened.
pub struct FoundDomains {
    /// The domains, by rising name.
    pub domains: ListOf<FoundDomain>,
    /// The changes that put the files of version 1 again, with their titles, in the order of the files' names.
    pub again: ListOf<Change>,
}

impl Drop for FoundDomains {
    fn drop(self) {
        let FoundDomains {
            domains: _,
            again: _,
        } = self;
    }
}

impl FoundDomains {
    /// The domains, and the changes.
    pub fn into_parts(self) -> (ListOf<FoundDomain>, ListOf<Change>)
        ensures { self ≡ record { domains = result.0; again = result.1 } }
    {
        let FoundDomains { domains, again } = self;
        (domains, again)
    }
}

/// Why what a store held is not served: the first such file in the order of their names.
#[derive(Debug, Drop, Error)]
pub enum FoundFault {
    /// The text of a definition has no reading, or is not that of the object that its file is of.
    #[error("a definition has a bad text")]
    BadText {
        /// The file's name.
        file: Text,
    },
    /// There are more definitions of a kind than are served: this is the first file past them.
    #[error("there are too many definitions of a kind")]
    TooMany {
        /// The file's name.
        file: Text,
    },
}
