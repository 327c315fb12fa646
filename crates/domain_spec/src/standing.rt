use crate::open::{OpenJob, OpenOperation};
use virt_types::{ListOf, State, Transition};

/// A registration as a chapter's base has it.
#[derive(Drop)]
pub struct Registration {
    /// The number of its pass.
    pub number: u64,
    /// Which registration it is.
    pub client: u32,
    /// How many transitions were taken.
    pub taken: u64,
    /// What pends.
    pub pending: ListOf<Transition>,
    /// Whether it was cut, so that after what pends its loss is due.
    pub is_lost: bool,
}

/// What a chapter of a history begins with.
#[derive(Drop)]
pub struct Base {
    /// The state.
    pub state: State,
    /// The operation that is under way.
    pub operation: Option<OpenOperation>,
    /// Who is registered.
    pub registrations: ListOf<Registration>,
}

/// A client that is registered, and how many transitions came since.
#[derive(Clone, Copy, Debug, PartialEq, Eq)]
pub struct Client {
    /// The number of the pass of its Watch.
    pub number: u64,
    /// Which registration it is.
    pub client: u32,
    /// How many transitions came before the last mark, Cuts aside.
    pub before: u64,
    /// How many have come.
    pub total: u64,
}

/// What is in force after some marks of a history: all that decides which mark may come next. Its fields are
/// read and replaced in place; none is moved out of it.
pub struct Standing {
    /// The state.
    pub state: State,
    /// The normal job that is held.
    pub job: Option<OpenJob>,
    /// Whether the last mark let that job's call in.
    pub just_admitted: bool,
    /// The operation that is under way.
    pub operation: Option<OpenOperation>,
    /// The boot whose monitor was lost, where its end is to be marked next.
    pub lost: Option<u64>,
    /// Who is registered.
    pub clients: ListOf<Client>,
}

// Written out, and not derived: so a proof meets one call where it is let go, and not a walk
// over its fields.
impl Drop for Standing {
    fn drop(self) {
        let Standing {
            state: _,
            job: _,
            just_admitted: _,
            operation: _,
            lost: _,
            clients: _,
        } = self;
    }
}
