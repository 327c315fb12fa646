use virt_types::{Answer, Call, EndReason, GuestEvent, Who};

/// What a call knows of its boot where it looks.
#[derive(Clone, Copy, Debug, PartialEq, Eq)]
pub enum First {
    /// Nothing: the live boot of this turn is the one that it carries.
    Now,
    /// A Destroy that waited: the boot that was live at its first look, none where none was.
    Boot(Option<u64>),
}

/// One step of a domain: whoever takes a turn does one of these. Lists of them, by any actors and in
/// any order, are all that can happen to a domain. `number`, of whatever type `N`, is the number of
/// the pass whose turn it is; a boot's end and a guest's event belong to nobody.
#[derive(Drop)]
pub enum CoreStep<N> {
    /// A call looks whether it is let in.
    Look {
        /// The number of its pass.
        number: N,
        /// Its caller.
        who: Who,
        /// The call, which neither begins an operation nor takes one up.
        call: Call,
        /// What it knows of its boot.
        first: First,
    },
    /// The ask that a call or a phase made last is answered.
    Back {
        /// The number of its pass.
        number: N,
        /// The answer, whichever it is.
        answer: Answer,
    },
    /// A call that looked often enough gives up.
    GiveUp {
        /// The number of its pass.
        number: N,
        /// Its caller.
        who: Who,
        /// The call.
        call: Call,
    },
    /// A call looks whether its operation may begin.
    BeginOp {
        /// The number of its pass.
        number: N,
        /// Its caller.
        who: Who,
        /// The call, which begins an operation.
        call: Call,
    },
    /// A call looks whether it may take up the operation that rests.
    TakeUp {
        /// The number of its pass.
        number: N,
        /// Its caller.
        who: Who,
        /// The call, which takes an operation up.
        call: Call,
    },
    /// An operation goes on with the phase that is due.
    Phase {
        /// The number of the operation's pass.
        number: N,
        /// The operation's caller.
        who: Who,
    },
    /// An operation that is over ends.
    EndOp {
        /// The number of the operation's pass.
        number: N,
        /// The operation's caller.
        who: Who,
    },
    /// A boot ended.
    Exit {
        /// Its number.
        boot: u64,
        /// Why.
        reason: EndReason,
    },
    /// A guest did something by itself.
    Event {
        /// Its boot.
        boot: u64,
        /// What it did.
        event: GuestEvent,
    },
    /// A client registers for the domain's events.
    Watch {
        /// The number of its pass.
        number: N,
    },
    /// A client takes what pends for it.
    Take {
        /// The number of its pass.
        number: N,
        /// The registration.
        client: u32,
    },
    /// A client ends its registration.
    Unwatch {
        /// The number of its pass.
        number: N,
        /// The registration.
        client: u32,
    },
    /// A chapter that has grown long ends, and the next one begins.
    Rotate {
        /// The number of its pass.
        number: N,
        /// The call for which it is done.
        who: Who,
    },
}
