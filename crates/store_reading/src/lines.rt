// The lines of files.
ghost use Rattle.std.specs.Prelude.{◌≡◌, ◌==◌, [], position};
ghost use Rattle.store_reading.specs.Lines.{Cuts, Ends, HasFirst, HasFlag, HasLine, Strips};

/// The first line of a definition's file, and what comes after it.
#[derive(Clone, Copy)]
pub(crate) struct FirstLine<'a> {
    pub autostart: bool,
    pub name: &'a [u8],
    pub rest: &'a [u8],
}

/// What comes after a front, where the bytes begin with it.
pub(crate) fn strip<'a>(front: &[u8], bytes: &'a [u8]) -> Option<&'a [u8]>
    ensures { Strips front.now bytes.now result }
{
    bytes.strip_prefix(front)
}

/// What comes before an ending, where the bytes end with it.
pub(crate) fn strip_end<'a>(ending: &[u8], bytes: &'a [u8]) -> Option<&'a [u8]>
    ensures { Ends ending.now bytes.now result }
{
    bytes.strip_suffix(ending)
}

// The place of the first of these bytes.
fn place_of(mark: u8, bytes: &[u8]) -> Option<usize>
    ensures { result ≡ position (λ b. b == mark) bytes.now }
{
    bytes.iter().position(|byte| *byte == mark)
}

/// What comes before the first of these bytes, and after it.
pub(crate) fn cut(mark: u8, bytes: &[u8]) -> Option<(&[u8], &[u8])>
    ensures { Cuts mark bytes.now result }
{
    match place_of(mark, bytes) {
        Some(place) => Some((bytes.split_at(place).0, bytes.split_at(place + 1).1)),
        None => None,
    }
}

/// A line with this label: its value, and what comes after it.
pub(crate) fn labelled<'a>(label: &[u8], bytes: &'a [u8]) -> Option<(&'a [u8], &'a [u8])>
    ensures { HasLine label.now bytes.now result }
{
    match strip(label, bytes) {
        Some(rest) => cut(b'\n', rest),
        None => None,
    }
}

// The flag at the front of bytes, and what comes after it and the word before the name.
fn flag(bytes: &[u8]) -> Option<(bool, &[u8])>
    ensures { HasFlag bytes.now result }
{
    match strip(b"yes name=".as_slice(), bytes) {
        Some(rest) => Some((true, rest)),
        None => match strip(b"no name=".as_slice(), bytes) {
            Some(rest) => Some((false, rest)),
            None => None,
        },
    }
}

// What comes after the flag: the name, and what comes after the line.
fn flagged(bytes: &[u8]) -> Option<FirstLine<'_>>
    ensures { HasFirst [] bytes.now result }
{
    match flag(bytes) {
        Some((autostart, rest)) => match cut(b'\n', rest) {
            Some((name, rest)) => Some(FirstLine {
                autostart,
                name,
                rest,
            }),
            None => None,
        },
        None => None,
    }
}

/// A first line with this front.
pub(crate) fn first_line<'a>(front: &[u8], bytes: &'a [u8]) -> Option<FirstLine<'a>>
    ensures { HasFirst front.now bytes.now result }
{
    match strip(front, bytes) {
        Some(rest) => flagged(rest),
        None => None,
    }
}
