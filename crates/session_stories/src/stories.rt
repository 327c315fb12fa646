// The stories, as data.
use crate::asked::Asked;
use story_guests::{Manner, Signal, Withheld};

/// What a client does next.
pub(crate) enum Step {
    /// It makes this call.
    Call(Asked),
    /// It makes this call once, and then again and again until this signal.
    Repeat(Asked, Signal),
    /// It gives the first signal, waits until the second one was given so often, and then makes this call.
    CallAfter(Signal, Signal, u64, Asked),
}

/// What one client does, and where its session is held up.
pub(crate) struct Part {
    pub(crate) steps: &'static [Step],
    /// What its session waits for before each call.
    pub(crate) before: Option<Signal>,
    /// What its session gives once a call was answered.
    pub(crate) after: Option<Signal>,
}

/// A story.
pub(crate) struct Story {
    pub(crate) title: &'static str,
    /// Which answer the guest withholds.
    pub(crate) manner: Manner,
    pub(crate) parts: &'static [Part],
}

pub(crate) const STORIES: &[Story] = &[
    Story {
        title: "the answer to a suspend is withheld until an info was answered",
        manner: Manner::Withholds(Withheld::Stop, Signal::Told),
        parts: &[
            Part {
                steps: &[
                    Step::Call(Asked::Define),
                    Step::Call(Asked::Start),
                    Step::Call(Asked::Suspend),
                ],
                before: None,
                after: None,
            },
            Part {
                steps: &[Step::Call(Asked::Info)],
                before: Some(Signal::Held),
                after: Some(Signal::Told),
            },
        ],
    },
    // The last command of the start is withheld. The second session's suspend is refused meanwhile, and the third reads the
    // state all the time; then the start may go on, and once it was answered there is a last info.
    Story {
        title: "the answer to a start is withheld until a suspend was refused",
        manner: Manner::Withholds(Withheld::Cont, Signal::Free),
        parts: &[
            Part {
                steps: &[Step::Call(Asked::Define), Step::Call(Asked::Start)],
                before: None,
                after: Some(Signal::Answered),
            },
            Part {
                steps: &[Step::Call(Asked::Suspend)],
                before: Some(Signal::Held),
                after: Some(Signal::Told),
            },
            Part {
                steps: &[
                    Step::Repeat(Asked::Info, Signal::Told),
                    Step::CallAfter(Signal::Free, Signal::Answered, 2, Asked::Info),
                ],
                before: Some(Signal::Held),
                after: None,
            },
        ],
    },
    Story {
        title: "the answer to a suspend is withheld until the guest was killed",
        manner: Manner::Withholds(Withheld::Stop, Signal::Killed),
        parts: &[
            Part {
                steps: &[
                    Step::Call(Asked::Define),
                    Step::Call(Asked::Start),
                    Step::Call(Asked::Suspend),
                ],
                before: None,
                after: None,
            },
            Part {
                steps: &[Step::Call(Asked::Destroy)],
                before: Some(Signal::Held),
                after: None,
            },
        ],
    },
];
