// Sessions, before they are served and after.
use six_rows::End;
use std::alloc::Global;

/// A session that is to be served.
#[derive(Drop)]
pub struct Session<S, O, N, T> {
    /// Where its packets and the texts of its refusals lie.
    pub alloc: Global,
    /// Its number.
    pub number: u64,
    /// Where its bytes come from.
    pub source: S,
    /// Where its messages go to.
    pub sink: O,
    /// What draws words for it.
    pub random: N,
    /// Where it may be held up.
    pub gate: T,
}

/// A session that was served.
#[derive(Drop)]
pub struct Served<S, O, N, T> {
    /// The session, with what is left of its source and what its sink was given.
    pub session: Session<S, O, N, T>,
    /// How it ended.
    pub end: End,
}
