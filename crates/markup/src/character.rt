// The classes of characters, as ranges from a first to a last.
ghost use Rattle.std.specs.Prelude.{◌≡◌};
ghost use Rattle.text_spec.specs.Character.{is_blank as spec_blank, is_char as spec_char, is_in, is_name_start as spec_start, is_name_char as spec_name, name_start_ranges, name_further_ranges};

const CHARACTERS: [(char, char); 5] = [
    ('\u{20}', '\u{D7FF}'),
    ('\u{9}', '\u{A}'),
    ('\u{D}', '\u{D}'),
    ('\u{E000}', '\u{FFFD}'),
    ('\u{10000}', '\u{10FFFF}'),
];

const NAME_STARTS: [(char, char); 16] = [
    ('a', 'z'),
    ('A', 'Z'),
    (':', ':'),
    ('_', '_'),
    ('\u{C0}', '\u{D6}'),
    ('\u{D8}', '\u{F6}'),
    ('\u{F8}', '\u{2FF}'),
    ('\u{370}', '\u{37D}'),
    ('\u{37F}', '\u{1FFF}'),
    ('\u{200C}', '\u{200D}'),
    ('\u{2070}', '\u{218F}'),
    ('\u{2C00}', '\u{2FEF}'),
    ('\u{3001}', '\u{D7FF}'),
    ('\u{F900}', '\u{FDCF}'),
    ('\u{FDF0}', '\u{FFFD}'),
    ('\u{10000}', '\u{EFFFF}'),
];

const NAME_FURTHER: [(char, char); 5] = [
    ('-', '.'),
    ('0', '9'),
    ('\u{B7}', '\u{B7}'),
    ('\u{300}', '\u{36F}'),
    ('\u{203F}', '\u{2040}'),
];

fn is_within(ranges: &[(char, char)], c: char) -> bool
    ensures { result ≡ is_in ranges.now c }
{
    ranges.iter().any(|range| range.0 <= c && c <= range.1)
}

pub(crate) fn is_blank(c: char) -> bool
    ensures { result ≡ spec_blank c }
{
    c == ' ' || c == '\n' || c == '\t' || c == '\r'
}

#[tactic(auto, unfolding(text_spec::specs::Character::is_char))]
pub(crate) fn is_char(c: char) -> bool
    ensures { result ≡ spec_char c }
{
    is_within(&CHARACTERS, c)
}

#[tactic(auto, unfolding(text_spec::specs::Character::is_name_start))]
pub(crate) fn is_name_start(c: char) -> bool
    ensures { result ≡ spec_start c }
{
    is_within(&NAME_STARTS, c)
}

#[tactic(auto, unfolding(text_spec::specs::Character::is_name_char))]
pub(crate) fn is_name_char(c: char) -> bool
    ensures { result ≡ spec_name c }
{
    is_name_start(c) || is_within(&NAME_FURTHER, c)
}
