// Who calls, and where in a history a call is.
ghost use Rattle.std.specs.Prelude.{◌≡◌};
ghost use Rattle.types_base.specs.Front.{is_longer, longer};

/// Which call of the program this is. No two calls have one.
#[derive(Clone, Copy, Debug, PartialEq, Eq)]
pub struct Who {
    /// The session: 0 is the daemon itself, which starts what has autostart.
    pub session: u64,
    /// The lane of the session in which the call is served, from 0.
    pub lane: u32,
    /// The number of the call in its lane, from 0.
    pub count: u64,
}

/// A place in the history of a cell. Fronts are ordered by chapter, then by marks; the greater
/// one is called the longer.
#[derive(Clone, Copy, Debug, PartialEq, Eq, PartialOrd, Ord)]
pub struct Front {
    /// The number of the chapter, from 0.
    pub chapter: u64,
    /// How many marks of that chapter come before the place.
    pub marks: u64,
}

impl Front {
    /// Whether this front is the longer one.
    pub fn is_longer(self, other: Front) -> bool
        ensures { result ≡ is_longer self other }
    {
        self > other
    }

    /// The longer of the two.
    pub fn longer(self, other: Front) -> Front
        ensures { result ≡ longer self other }
    {
        if other > self { other } else { self }
    }
}

/// Which cell an outcome rests on.
#[derive(Clone, Copy, Debug, PartialEq, Eq)]
pub enum CellName {
    /// The domain in this slot of the list of domains.
    Domain(u32),
    /// The list of domains.
    List,
    /// The store of definitions.
    Store,
    /// The book of networks.
    Networks,
    /// The book of pools.
    Pools,
    /// None: the bytes or an argument decide alone, or a connection is opened or closed.
    Nowhere,
}
