// The names of files, read.
ghost use Rattle.std.specs.Prelude.{◌≡◌, codes};
ghost use Rattle.std.specs.Bool.{Decides};
ghost use Rattle.uuid.specs.Text.{hyphenated_text, lower};
ghost use Rattle.store_spec.specs.FileNames.{IsDefinitionName, IsStatusName, kind_word};
ghost use Rattle.store_reading.specs.FileName.{IsFileOf, IsNamedAs, IsSpelled, IsStatusOf};
ghost use Rattle.store_reading.specs.Lines.{Ends, Strips};

use crate::known::known_uuid;
use crate::lines::{strip, strip_end};
use store_spec::BookKind;
use virt_types::Uuid;

// Whether the digits spell this identifier, in small letters.
fn is_spelled(uuid: &Uuid, digits: &[u8]) -> bool
    ensures { Decides result (hyphenated_text lower uuid.now ≡ digits.now) }
{
    let mut buffer = Uuid::encode_buffer();
    uuid.hyphenated().encode_lower(&mut buffer).as_bytes() == digits
}

// The identifier that is spelled so, in small letters.
fn spelled(digits: &[u8]) -> Option<Uuid>
    ensures { IsSpelled digits.now result }
{
    match Uuid::try_parse_ascii(digits) {
        Ok(uuid) => {
            known_uuid(&uuid);
            if is_spelled(&uuid, digits) {
                return Some(uuid);
            }
            None
        }
        Err(_) => None,
    }
}

// What comes after a hyphen.
fn after_hyphen(bytes: &[u8]) -> Option<&[u8]>
    ensures { Strips (codes "-") bytes.now result }
{
    strip(b"-".as_slice(), bytes)
}

// The identifier in the name of a file with this word and ending.
fn uuid_in(word: &[u8], ending: &[u8], name: &[u8]) -> Option<Uuid>
    ensures { IsFileOf word.now ending.now name.now result }
{
    match strip(word, name) {
        Some(rest) => match after_hyphen(rest) {
            Some(rest) => match strip_end(ending, rest) {
                Some(digits) => spelled(digits),
                None => None,
            },
            None => None,
        },
        None => None,
    }
}

// The identifier in the name of a definition's file of this kind.
fn uuid_of(kind: BookKind, name: &[u8]) -> Option<Uuid>
    ensures { IsFileOf (kind_word kind) (codes ".def") name.now result }
{
    uuid_in(kind.word().as_bytes(), b".def".as_slice(), name)
}

/// The kind and the identifier in the name of a definition's file.
pub fn read_definition_name(name: &[u8]) -> Option<(BookKind, Uuid)>
    ensures { IsNamedAs name.now result }
{
    if let Some(uuid) = uuid_of(BookKind::Domain, name) {
        return Some((BookKind::Domain, uuid));
    }
    if let Some(uuid) = uuid_of(BookKind::Network, name) {
        return Some((BookKind::Network, uuid));
    }
    match uuid_of(BookKind::Pool, name) {
        Some(uuid) => Some((BookKind::Pool, uuid)),
        None => None,
    }
}

/// The identifier in the name of a status file.
pub fn read_status_name(name: &[u8]) -> Option<Uuid>
    ensures { IsStatusOf name.now result }
{
    uuid_in(b"run".as_slice(), b".sta".as_slice(), name)
}

/// Whether the name says that its file is a definition.
pub fn is_definition_name(name: &[u8]) -> bool
    ensures { Decides result (IsDefinitionName name.now) }
{
    match strip_end(b".def".as_slice(), name) {
        Some(_) => true,
        None => false,
    }
}

// The front of the name of a status file.
fn after_run(name: &[u8]) -> Option<&[u8]>
    ensures { Strips (codes "run-") name.now result }
{
    strip(b"run-".as_slice(), name)
}

// Its ending.
fn before_status(name: &[u8]) -> Option<&[u8]>
    ensures { Ends (codes ".sta") name.now result }
{
    strip_end(b".sta".as_slice(), name)
}

/// Whether the name says that its file reports a live boot.
pub fn is_status_name(name: &[u8]) -> bool
    ensures { Decides result (IsStatusName name.now) }
{
    match after_run(name) {
        Some(rest) => match before_status(rest) {
            Some(_) => true,
            None => false,
        },
        None => false,
    }
}
