// Scripts of modelled guests.
ghost use Rattle.std.specs.Prelude.{◌≡◌, ◌≤◌, ◌<◌, ◌∷◌, length, IfOk, IfSome, option_copied};
ghost use Rattle.std.specs.List.{prefix_len};
ghost use Rattle.text_spec.specs.GuestScript as spec;
ghost use Rattle.text_spec.specs.Units.{number_of as number_in};
ghost use Rattle.xml_tables.specs.Pieces.{pieces_in};

use std::alloc::Global;
use types_base::{NoMemory, ScriptAct, ScriptEntry, ScriptEntryList};
use xml_words::read_number;

/// The most polls that a copy takes.
const MOST_SLOW: u64 = 1_000_000;

/// The greatest number of a boot or a command.
const MOST_COUNT: u64 = (1 << 62) - 1;

fn is_gap(byte: u8) -> bool
    ensures { result ≡ spec.is_gap byte }
{
    byte == b' ' || byte == b'\t'
}

fn gap_length(bytes: &[u8]) -> usize
    ensures count { result ≡ prefix_len spec.is_gap bytes.now }
    ensures within { result ≤ length bytes.now }
{
    let mut count = 0;
    let mut rest = bytes;
    while let Some((byte, after)) = rest.split_first() {
        if !is_gap(*byte) {
            break;
        }
        count += 1;
        rest = after;
    }
    count
}

fn word_length(bytes: &[u8]) -> usize
    ensures count { result ≡ prefix_len spec.is_in_word bytes.now }
    ensures within { result ≤ length bytes.now }
{
    let mut count = 0;
    let mut rest = bytes;
    while let Some((byte, after)) = rest.split_first() {
        if is_gap(*byte) {
            break;
        }
        count += 1;
        rest = after;
    }
    count
}

fn piece_length(bytes: &[u8]) -> usize
    ensures count { result ≡ prefix_len spec.not_separator bytes.now }
    ensures within { result ≤ length bytes.now }
{
    let mut count = 0;
    let mut rest = bytes;
    while let Some((byte, after)) = rest.split_first() {
        if *byte == b';' {
            break;
        }
        count += 1;
        rest = after;
    }
    count
}

#[tactic(auto, unfolding(text_spec::specs::GuestScript::after_gap))]
fn after_gap(bytes: &[u8]) -> &[u8]
    ensures { result.now ≡ spec.after_gap bytes.now }
{
    bytes.split_at(gap_length(bytes)).1
}

/// The word at the front, after blanks, and what follows it.
#[tactic(auto, unfolding(text_spec::specs::GuestScript::word_at))]
fn word_at(bytes: &[u8]) -> (&[u8], &[u8])
    ensures { (result.0.now, result.1.now) ≡ spec.word_at bytes.now }
{
    let word = after_gap(bytes);
    word.split_at(word_length(word))
}

#[tactic(auto, unfolding(text_spec::specs::GuestScript::is_over))]
fn is_over(bytes: &[u8]) -> bool
    ensures { result ≡ spec.is_over bytes.now }
{
    after_gap(bytes).is_empty()
}

#[tactic(auto, using(crate::proofs::Digits::no_number))]
fn number_of(word: &[u8]) -> Option<u64>
    ensures { result ≡ number_in word.now }
{
    match str::from_utf8(word) {
        Ok(text) => read_number(text),
        Err(_) => None,
    }
}

#[tactic(auto, unfolding(text_spec::specs::GuestScript::number_within))]
fn number_within(least: u64, most: u64, word: &[u8]) -> Option<u64>
    ensures { result ≡ spec.number_within least most word.now }
{
    let number = number_of(word)?;
    if least <= number && number <= most {
        Some(number)
    } else {
        None
    }
}

fn count_of(word: &[u8]) -> Option<u64>
    ensures { result ≡ spec.count_of word.now }
{
    number_within(1, MOST_COUNT, word)
}

#[tactic(auto, unfolding(text_spec::specs::GuestScript::act_of))]
fn act_of(word: &[u8]) -> Option<ScriptAct>
    ensures { result ≡ spec.act_of word.now }
{
    match word {
        b"end" => Some(ScriptAct::End),
        b"refuse" => Some(ScriptAct::Refuse),
        b"lost" => Some(ScriptAct::Lost),
        _ => None,
    }
}

/// `stall`, from after that word.
fn stall_at(rest: &[u8]) -> Option<ScriptEntry>
    ensures { result ≡ spec.stall_at rest.now }
{
    if is_over(rest) {
        Some(ScriptEntry::Stall)
    } else {
        None
    }
}

/// `slow N`, from its number on.
fn slow_by(number: (&[u8], &[u8])) -> Option<ScriptEntry>
    ensures { result ≡ spec.slow_by (number.entry.0.now, number.entry.1.now) }
{
    if is_over(number.1) {
        Some(ScriptEntry::Slow(number_within(0, MOST_SLOW, number.0)?))
    } else {
        None
    }
}

/// `boot B command C ACT`, from its act on.
fn act_by(boot: u64, command: u64, word: (&[u8], &[u8])) -> Option<ScriptEntry>
    ensures { result ≡ spec.act_by boot command (word.entry.0.now, word.entry.1.now) }
{
    if !is_over(word.1) {
        return None;
    }
    let act = act_of(word.0)?;
    Some(ScriptEntry::At { boot, command, act })
}

fn number_by(boot: u64, number: (&[u8], &[u8])) -> Option<ScriptEntry>
    ensures { result ≡ spec.number_by boot (number.entry.0.now, number.entry.1.now) }
{
    let command = count_of(number.0)?;
    act_by(boot, command, word_at(number.1))
}

fn command_by(boot: u64, word: (&[u8], &[u8])) -> Option<ScriptEntry>
    ensures { result ≡ spec.command_by boot (word.entry.0.now, word.entry.1.now) }
{
    if word.0 == b"command".as_slice() {
        number_by(boot, word_at(word.1))
    } else {
        None
    }
}

fn boot_by(number: (&[u8], &[u8])) -> Option<ScriptEntry>
    ensures { result ≡ spec.boot_by (number.entry.0.now, number.entry.1.now) }
{
    let boot = count_of(number.0)?;
    command_by(boot, word_at(number.1))
}

/// The entry that a piece of a script is.
#[tactic(auto, unfolding(text_spec::specs::GuestScript::entry_of))]
fn entry_of(piece: &[u8]) -> Option<ScriptEntry>
    ensures { result ≡ spec.entry_of piece.now }
{
    let word = word_at(piece);
    match word.0 {
        b"boot" => boot_by(word_at(word.1)),
        b"slow" => slow_by(word_at(word.1)),
        b"stall" => stall_at(word.1),
        _ => None,
    }
}

/// The first piece, and what follows the separator that ends it.
#[tactic(auto, using(crate::proofs::Pieces::cut_after_first))]
fn first_piece(bytes: &[u8]) -> (&[u8], Option<&[u8]>)
    ensures pieces { spec.pieces_of bytes.now ≡ result.0.now ∷ pieces_in (option_copied result.1) }
    ensures within { IfSome result.1 (λ rest. length rest.now < length bytes.now) }
{
    let (piece, rest) = bytes.split_at(piece_length(bytes));
    match rest.split_first() {
        None => (piece, None),
        Some((_, after)) => (piece, Some(after)),
    }
}

/// The entries of a text that is not empty.
#[tactic(auto, using(crate::proofs::Pieces::entry_moved), unfolding(text_spec::specs::GuestScript::all_entries))]
fn all_entries(alloc: Global, text: &[u8]) -> Result<Option<ScriptEntryList>, NoMemory>
    ensures { IfOk result (λ found. found ≡ spec.all_entries (spec.pieces_of text.now)) }
{
    let mut found = Vec::new(alloc);
    let mut rest = text;
    loop {
        let (piece, after) = first_piece(rest);
        match entry_of(piece) {
            Some(entry) => found.push(entry)?,
            None => return Ok(None),
        }
        match after {
            Some(after) => rest = after,
            None => return Ok(Some(ScriptEntryList::of(found))),
        }
    }
}

/// The entries of a script, where it is one. The empty text has none.
#[tactic(auto, unfolding(text_spec::specs::GuestScript::entries_of))]
pub fn entries_of(alloc: Global, text: &[u8]) -> Result<Option<ScriptEntryList>, NoMemory>
    ensures { IfOk result (λ found. found ≡ spec.entries_of text.now) }
{
    if text.is_empty() {
        return Ok(Some(ScriptEntryList::new(alloc)));
    }
    all_entries(alloc, text)
}
