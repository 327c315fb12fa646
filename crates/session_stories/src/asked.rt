// What the clients of stories ask, all of the domain `a`: packets with the serial 1, each of a header of seven words and a
// payload, which is a text or the domain's name, identifier and number.

/// What a client asks.
#[derive(Clone, Copy)]
pub(crate) enum Asked {
    /// That the domain be there.
    Define,
    /// That it runs.
    Start,
    /// That it stands still.
    Suspend,
    /// Its state.
    Info,
    /// That it ends.
    Destroy,
}

const DEFINE: &[u8] = b"\0\0\0\xb0\x20\0\x80\x86\0\0\0\x01\0\0\0\x0b\0\0\0\0\0\0\0\x01\0\0\0\0\
    \0\0\0\x8d\
    <domain type='qemu'><name>a</name><uuid>11111111-2222-4333-8444-555555555501</uuid>\
    <memory>1048576</memory><os><type>hvm</type></os></domain>\0\0\0";

const START: &[u8] = b"\0\0\0\x38\x20\0\x80\x86\0\0\0\x01\0\0\0\x09\0\0\0\0\0\0\0\x01\0\0\0\0\
    \0\0\0\x01a\0\0\0\x11\x11\x11\x11\x22\x22\x43\x33\x84\x44\x55\x55\x55\x55\x55\x01\
    \xff\xff\xff\xff";

const SUSPEND: &[u8] = b"\0\0\0\x38\x20\0\x80\x86\0\0\0\x01\0\0\0\x22\0\0\0\0\0\0\0\x01\0\0\0\0\
    \0\0\0\x01a\0\0\0\x11\x11\x11\x11\x22\x22\x43\x33\x84\x44\x55\x55\x55\x55\x55\x01\
    \xff\xff\xff\xff";

const READ_STATE: &[u8] = b"\0\0\0\x38\x20\0\x80\x86\0\0\0\x01\0\0\0\x10\0\0\0\0\0\0\0\x01\0\0\0\0\
    \0\0\0\x01a\0\0\0\x11\x11\x11\x11\x22\x22\x43\x33\x84\x44\x55\x55\x55\x55\x55\x01\
    \xff\xff\xff\xff";

const DESTROY: &[u8] = b"\0\0\0\x38\x20\0\x80\x86\0\0\0\x01\0\0\0\x0c\0\0\0\0\0\0\0\x01\0\0\0\0\
    \0\0\0\x01a\0\0\0\x11\x11\x11\x11\x22\x22\x43\x33\x84\x44\x55\x55\x55\x55\x55\x01\
    \xff\xff\xff\xff";

/// The number of the procedure that reads a state.
pub(crate) const INFO: u32 = 16;

/// The word of what a reply of this procedure answers.
pub(crate) fn word_of(procedure: u32) -> &'static str {
    match procedure {
        11 => "define",
        9 => "start",
        34 => "suspend",
        INFO => "info",
        12 => "destroy",
        _ => "another reply",
    }
}

impl Asked {
    /// The packet that asks it.
    pub(crate) fn packet(self) -> &'static [u8] {
        match self {
            Asked::Define => DEFINE,
            Asked::Start => START,
            Asked::Suspend => SUSPEND,
            Asked::Info => READ_STATE,
            Asked::Destroy => DESTROY,
        }
    }
}
