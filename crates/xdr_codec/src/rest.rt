ghost use Rattle.std.specs.Prelude.{◌+◌, ◌<◌, ◌^◌, length};
ghost use Rattle.wire_spec.specs.XdrReading.{IsBytes};

/// What is left of a payload: its bytes, and the place of the first of them.
#[derive(Clone, Copy)]
pub(crate) struct Rest<'a> {
    pub(crate) bytes: &'a [u8],
    pub(crate) place: u64,
    ghost fits: { place + length bytes.now < 2 ^ 64 },
    ghost each: { IsBytes bytes.now },
}
