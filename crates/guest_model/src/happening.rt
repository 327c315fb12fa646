// What a guest does by itself.
use virt_types::{EndReason, GuestEvent};

/// What a guest did that is still to be heard.
#[derive(Clone, Copy, Debug, PartialEq, Eq)]
pub enum Happening {
    /// It reports this.
    Event(GuestEvent),
    /// It ends, as soon as that is heard.
    End(EndReason),
}
