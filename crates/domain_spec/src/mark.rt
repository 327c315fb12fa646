use crate::step::Outcome;
use virt_types::{
    AnswerList, AskList, Boxed, Call, EndReason, GuestEvent, Job, ListOf, OpKind, Phase,
    RefusalCode, Reply, Transition, Who, WhoList,
};

/// The operation that is held for a domain.
#[derive(Clone, Copy, Debug, PartialEq, Eq)]
pub struct HeldOperation {
    /// What kind it is.
    pub kind: OpKind,
    /// Who holds it.
    pub who: Who,
    /// Whether it rests until a call takes it up.
    pub rests: bool,
}

/// The jobs that were held for a domain where a call looked whether it might be let in.
#[derive(Drop)]
pub struct HeldJobs {
    /// The normal job that was held, and who held it.
    pub active: Option<(Job, Who)>,
    /// The operation that was held.
    pub op: Option<HeldOperation>,
    /// Who waited.
    pub waiting: WhoList,
}

/// One thing that applied to a domain. `number`, of whatever type `N`, is the number of the pass in
/// whose turn a call's mark was made; a boot's end, a guest's event and a cut belong to nobody. What is
/// large is boxed, so that a mark takes 160 bytes where `N` takes none.
#[derive(Drop)]
pub enum Mark<N> {
    /// A call was let in.
    Admit {
        /// The number of its pass.
        number: N,
        /// Its caller.
        who: Who,
        /// The job that it took.
        job: Job,
        /// The call.
        call: Call,
        /// The boot that it carries; none where no boot was live.
        boot: Option<u64>,
    },
    /// A call was done.
    Done {
        /// The number of its pass.
        number: N,
        /// Its caller.
        who: Who,
        /// The call.
        call: Call,
        /// The boot that it carries.
        boot: Option<u64>,
        /// What it asked, in order.
        asks: AskList,
        /// What each ask was answered.
        answers: AnswerList,
        /// What the caller is told.
        reply: Boxed<Reply>,
        /// What listeners are told.
        transitions: ListOf<Transition>,
    },
    /// A call was refused since its job was excluded.
    Refused {
        /// The number of its pass.
        number: N,
        /// Its caller.
        who: Who,
        /// The call.
        call: Boxed<Call>,
        /// Whether it looked often enough, or too many others waited.
        code: RefusalCode,
        /// The jobs that it found held.
        held: HeldJobs,
    },
    /// An operation began.
    Start {
        /// The number of its pass.
        number: N,
        /// Its caller.
        who: Who,
        /// The call that begins it.
        call: Call,
        /// The boot that the call carries.
        boot: Option<u64>,
    },
    /// A call took up the operation that rested.
    TakeUp {
        /// The number of its pass.
        number: N,
        /// Its caller.
        who: Who,
        /// The call that takes it up.
        call: Call,
    },
    /// A phase of an operation was done.
    Phase {
        /// The number of the operation's pass.
        number: N,
        /// The operation's caller.
        who: Who,
        /// The phase.
        phase: Phase,
        /// What it asked, in order.
        asks: AskList,
        /// What each ask was answered.
        answers: AnswerList,
        /// What it leads to.
        outcome: Outcome,
        /// What listeners are told.
        transitions: ListOf<Transition>,
    },
    /// An operation ended.
    End {
        /// The number of its pass.
        number: N,
        /// Its caller.
        who: Who,
        /// What the caller is told.
        reply: Reply,
    },
    /// A boot ended.
    Exit {
        /// Its number.
        boot: u64,
        /// Why.
        reason: EndReason,
        /// What listeners are told.
        transitions: ListOf<Transition>,
    },
    /// A guest did something by itself.
    Event {
        /// Its boot.
        boot: u64,
        /// What it did.
        event: GuestEvent,
        /// What listeners are told.
        transitions: ListOf<Transition>,
    },
    /// A client registered for the domain's events.
    Watch {
        /// The number of its pass.
        number: N,
        /// The registration.
        client: u32,
    },
    /// A registration was ended by its client.
    Unwatch {
        /// The number of its pass, that of its Watch.
        number: N,
        /// The registration.
        client: u32,
    },
    /// A registration was ended since too much pended.
    Cut {
        /// The registration.
        client: u32,
        /// How many transitions it was given in all.
        total: u64,
        /// How many of them were taken.
        taken: u64,
    },
}
