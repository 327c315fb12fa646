// What is told of what was heard.
ghost use Rattle.std.specs.Prelude.{◌≡◌};
ghost use Rattle.domain_obj.specs.Telling.{told_of};

use monitor_link::Heard;
use virt_types::{EndReason, GuestEvent};

/// What a guest did by itself, as its domain is told.
#[derive(Clone, Copy, Debug, PartialEq, Eq)]
pub enum Told {
    /// It did this.
    Event(GuestEvent),
    /// It has ended.
    End(EndReason),
}

/// What is told of what was heard. A lost link is an end for that reason; ears that report such an end themselves have no
/// cause for it, so nothing is told of that.
pub(crate) fn told_of(heard: Heard) -> Option<Told>
    ensures { result ≡ told_of heard }
{
    match heard {
        Heard::Event(event) => Some(Told::Event(event)),
        Heard::Lost => Some(Told::End(EndReason::Lost)),
        Heard::Ended(EndReason::Lost) | Heard::Quiet | Heard::NoMemory => None,
        Heard::Ended(why) => Some(Told::End(why)),
    }
}
