// The stories, as data. Each is played on a domain of its own.
use crate::asked::Asked;
use story_guests::{Manner, Signal, Withheld};

/// One step.
#[derive(Clone, Copy)]
pub(crate) enum Step {
    /// A call.
    Call(Asked),
    /// The state is read.
    Info,
    /// The state is read again and again until this signal.
    Watch(Signal),
    /// The guest is heard.
    Hear,
    /// The thread waits until this signal was given so often.
    Wait(Signal, u64),
    /// It gives this signal.
    Give(Signal),
}

/// The steps of one thread, or of so many that all do the same.
pub(crate) struct Part {
    pub(crate) threads: u64,
    /// Before which phase of its operations the thread is held until it is set free, counted from 1 over all of them.
    pub(crate) held_before: Option<u64>,
    pub(crate) steps: &'static [Step],
}

/// A story.
pub(crate) struct Story {
    pub(crate) title: &'static str,
    /// What its guests do beside what they are told.
    pub(crate) manner: Manner,
    /// The ticket of the domain's first turn.
    pub(crate) first_ticket: u64,
    pub(crate) parts: &'static [Part],
    /// Where many threads do the same: what a thread may be told, with the number of marks that its pass leaves then. How many
    /// were told so is in the row, and not who.
    pub(crate) told: &'static [&'static str],
}

/// The last ticket.
const LAST_TICKET: u64 = 4_611_686_018_427_387_903;

/// How many phases a start has.
const START: u64 = 2;

pub(crate) const STORIES: &[Story] = &[
    // After its guest was made a start is held: a suspend is refused, while the domain is seen paused.
    Story {
        title: "a start that is held",
        manner: Manner::Plain,
        first_ticket: 0,
        parts: &[
            Part {
                threads: 1,
                held_before: Some(2),
                steps: &[Step::Call(Asked::Start)],
            },
            Part {
                threads: 1,
                held_before: None,
                steps: &[
                    Step::Wait(Signal::Held, 1),
                    Step::Call(Asked::Suspend),
                    Step::Give(Signal::Told),
                ],
            },
            Part {
                threads: 1,
                held_before: None,
                steps: &[
                    Step::Wait(Signal::Held, 1),
                    Step::Watch(Signal::Told),
                    Step::Give(Signal::Free),
                ],
            },
        ],
        told: &[],
    },
    // The monitor withholds its answer to a suspend until the guest is ended from outside. Another thread reads the domain
    // meanwhile and hears its guest, so nothing is locked, and then a destroy ends the guest at its first look.
    Story {
        title: "killed while it waits",
        manner: Manner::Withholds(Withheld::Stop, Signal::Killed),
        first_ticket: 0,
        parts: &[
            Part {
                threads: 1,
                held_before: None,
                steps: &[Step::Call(Asked::Start), Step::Call(Asked::Suspend)],
            },
            Part {
                threads: 1,
                held_before: None,
                steps: &[
                    Step::Wait(Signal::Held, 1),
                    Step::Info,
                    Step::Hear,
                    Step::Call(Asked::Destroy),
                ],
            },
        ],
        told: &[],
    },
    // A save is given up after its second poll.
    Story {
        title: "aborted",
        manner: Manner::Plain,
        first_ticket: 0,
        parts: &[
            Part {
                threads: 1,
                held_before: Some(START + 4),
                steps: &[
                    Step::Call(Asked::Start),
                    Step::Call(Asked::Save),
                    Step::Info,
                ],
            },
            Part {
                threads: 1,
                held_before: None,
                steps: &[
                    Step::Wait(Signal::Held, 1),
                    Step::Info,
                    Step::Call(Asked::Attach),
                    Step::Call(Asked::Abort),
                    Step::Give(Signal::Free),
                ],
            },
        ],
        told: &[],
    },
    // A guest is suspended between two phases of a dump.
    Story {
        title: "between two phases",
        manner: Manner::Plain,
        first_ticket: 0,
        parts: &[
            Part {
                threads: 1,
                held_before: Some(START + 2),
                steps: &[
                    Step::Call(Asked::Start),
                    Step::Call(Asked::Dump),
                    Step::Info,
                ],
            },
            Part {
                threads: 1,
                held_before: None,
                steps: &[
                    Step::Wait(Signal::Held, 1),
                    Step::Call(Asked::Suspend),
                    Step::Give(Signal::Free),
                ],
            },
        ],
        told: &[],
    },
    // The monitor withholds its answer to a suspend until one of 33 other threads, which wait for it, is turned away; then
    // the others are admitted.
    Story {
        title: "33 wait",
        manner: Manner::Withholds(Withheld::Stop, Signal::Full),
        first_ticket: 0,
        parts: &[
            Part {
                threads: 1,
                held_before: None,
                steps: &[
                    Step::Call(Asked::Start),
                    Step::Wait(Signal::There, 33),
                    Step::Call(Asked::Suspend),
                ],
            },
            Part {
                threads: 33,
                held_before: None,
                steps: &[
                    Step::Give(Signal::There),
                    Step::Wait(Signal::Held, 1),
                    Step::Call(Asked::Suspend),
                ],
            },
        ],
        told: &[
            "start Ok, suspend Ok, 9",
            "suspend Ok, 2",
            "suspend 203 32, 1",
        ],
    },
    // A guest whose ears have always one more event is heard 64 times at once.
    Story {
        title: "talks without end",
        manner: Manner::TalksOn,
        first_ticket: 0,
        parts: &[Part {
            threads: 1,
            held_before: None,
            steps: &[Step::Call(Asked::Start), Step::Hear],
        }],
        told: &[],
    },
    // The monitor withholds its answer to a suspend until 64 events of its guest are held: no more are heard meanwhile.
    Story {
        title: "64 are held",
        manner: Manner::TalksOnAndWithholds(Withheld::Stop, Signal::Told),
        first_ticket: 0,
        parts: &[
            Part {
                threads: 1,
                held_before: None,
                steps: &[
                    Step::Call(Asked::Start),
                    Step::Call(Asked::Suspend),
                    Step::Info,
                ],
            },
            Part {
                threads: 1,
                held_before: None,
                steps: &[
                    Step::Wait(Signal::Held, 1),
                    Step::Hear,
                    Step::Hear,
                    Step::Give(Signal::Told),
                ],
            },
        ],
        told: &[],
    },
    // One ticket is left. A query takes it; a call is told that none is left, and the pass that has none does not come back.
    Story {
        title: "spent",
        manner: Manner::Plain,
        first_ticket: LAST_TICKET,
        parts: &[Part {
            threads: 1,
            held_before: None,
            steps: &[Step::Info, Step::Call(Asked::Suspend)],
        }],
        told: &[],
    },
];
