// The kinds of objects that the store keeps definitions of.
ghost use Rattle.std.specs.Prelude.{◌≡◌};
ghost use Rattle.store_spec.specs.FileNames.{kind_word};

/// A kind of object with definitions.
#[derive(Clone, Copy, Debug, PartialEq, Eq)]
pub enum BookKind {
    /// Domains.
    Domain,
    /// Networks.
    Network,
    /// Storage pools.
    Pool,
}

impl BookKind {
    /// The word for it, with which the names of its files begin.
    pub fn word(self) -> &'static str
        ensures { result.now ≡ kind_word self }
    {
        match self {
            BookKind::Domain => "domain",
            BookKind::Network => "network",
            BookKind::Pool => "pool",
        }
    }
}
