ghost use Rattle.std.specs.Prelude.{◌<◌, ◌+◌, ◌^◌, length};

use command_spec::Flag;

/// What is left of a command line: its words, the number of the first of them, the option that may
/// still come, and the one that came.
#[derive(Clone, Copy)]
pub(crate) struct Rest<'a> {
    pub(crate) words: &'a [String],
    pub(crate) place: u64,
    pub(crate) allowed: Option<Flag>,
    pub(crate) given: Option<Flag>,
    ghost fits: { place + length words.now < 2 ^ 64 },
}
