// Names of domains, networks, pools, volumes and snapshots.
ghost use Rattle.std.specs.Prelude.{◌≡◌, IfOk, IfErr, IfNone, IsUtf8, OnOk, None, position, length, ◌≤◌};
ghost use Rattle.types_base.specs.Name.{IsName, IsRefused, bad_place, first_forbidden, is_bad_whole, is_forbidden};

use crate::copy::TryCopy;
use crate::memory::{NoMemory, OrNoMemory};
use std::alloc::Global;
use std::error::Error;
use std::fmt;
use std::marker::Model;

/// A name: 1 to 128 bytes of UTF-8 with no `/`, no byte below 0x20 and no 0x7f, which is neither
/// `.` nor `..`. So it can be in the name of a file.
#[derive(Debug)]
pub struct Name {
    text: String,
}

impl Drop for Name {
    fn drop(self) {
        let Name { text: _ } = self;
    }
}

impl Model for Name {
    ghost use Rattle.std.specs.Prelude.{List, ℕ};
    ghost use Rattle.std.specs.String.{string_bytes};
    ghost use Rattle.types_base.specs.Name.{IsName};

    ghost Value = { List ℕ };

    ghost view = { λ n. string_bytes n.text };

    ghost invariant = { λ n. IsName (string_bytes n.text) };
}

/// These bytes are no name.
#[derive(Clone, Copy, Debug, PartialEq, Eq)]
pub struct BadName {
    /// The place of the first byte that no name has there, counted from 0; of an ill-formed
    /// sequence of UTF-8 that is its first byte. Where no byte is wrong, but the length or the
    /// whole, as of `..`, it is the length.
    pub at: u64,
}

impl fmt::Display for BadName {
    fn fmt<W: fmt::Write>(&self, f: &mut fmt::Formatter<W>) -> fmt::Result {
        write!(f, "no name, from byte {}", self.at)
    }
}

impl Error for BadName {}

impl From<BadName> for OrNoMemory<BadName> {
    ghost use Rattle.std.specs.Prelude.{◌≡◌};
    ghost use Rattle.types_base.specs.declared.memory.OrNoMemory.TheVariants as or;

    ghost from_gives = { λ bad e. e ≡ or.Fault bad };

    fn from(bad: BadName) -> OrNoMemory<BadName> {
        OrNoMemory::Fault(bad)
    }
}

// The longest name, in bytes.
const MOST: usize = 128;

fn is_forbidden_byte(byte: u8) -> bool
    ensures { result ≡ is_forbidden byte }
{
    byte < 0x20 || byte == b'/' || byte == 0x7f
}

fn forbidden_position(bytes: &[u8]) -> Option<usize>
    ensures { result ≡ position is_forbidden bytes.now }
{
    bytes.iter().position(|byte| is_forbidden_byte(*byte))
}

// The place of the first byte that no name has, or the length.
#[tactic(auto, using(crate::proofs::Names::place_or_len))]
fn forbidden_place(bytes: &[u8]) -> usize
    ensures place { result ≡ first_forbidden bytes.now }
    ensures within { result ≤ length bytes.now }
{
    forbidden_position(bytes).unwrap_or(bytes.len())
}

// Of bytes that are all allowed.
fn is_no_whole(bytes: &[u8]) -> bool
    ensures { result ≡ is_bad_whole bytes.now }
{
    bytes.is_empty() || bytes.len() > MOST || bytes == b".".as_slice() || bytes == b"..".as_slice()
}

// Where UTF-8 is no name.

fn fault_place(bytes: &[u8]) -> Option<usize>
    requires { IsUtf8 bytes.now }
    ensures place { result ≡ bad_place bytes.now }
    ensures name { IfNone result (IsName bytes.now) }
{
    let wrong = forbidden_place(bytes);
    if wrong < bytes.len() || is_no_whole(bytes) {
        return Some(wrong);
    }
    None
}

impl Name {
    /// The name that these bytes are.
    pub fn read(alloc: Global, bytes: &[u8]) -> Result<Name, OrNoMemory<BadName>>
        ensures value { IfOk result (λ name. name ≡ bytes.now) }
        ensures name { OnOk result (IsName bytes.now) }
        ensures good { OnOk result (bad_place bytes.now ≡ None) }
        ensures bad { IfErr result (IsRefused bytes.now) }
    {
        match str::from_utf8(bytes) {
            Ok(text) => Name::of_text(alloc, text),
            Err(fault) => Err(OrNoMemory::Fault(BadName {
                at: forbidden_place(bytes).min(fault.valid_up_to()) as u64,
            })),
        }
    }

    fn of_text(alloc: Global, text: &str) -> Result<Name, OrNoMemory<BadName>>
        ensures value { IfOk result (λ name. name ≡ text.now) }
        ensures name { OnOk result (IsName text.now) }
        ensures good { OnOk result (bad_place text.now ≡ None) }
        ensures bad { IfErr result (IsRefused text.now) }
    {
        match fault_place(text.as_bytes()) {
            Some(at) => Err(OrNoMemory::Fault(BadName { at: at as u64 })),
            None => Ok(Name {
                text: String::from_str(alloc, text)?,
            }),
        }
    }

    /// The characters.
    pub fn as_str(&self) -> &str
        ensures value { result.now ≡ self.now }
        ensures name { IsName self.now }
    {
        self.text.as_str()
    }

    /// The bytes of the characters in UTF-8.
    pub fn as_bytes(&self) -> &[u8]
        ensures value { result.now ≡ self.now }
        ensures name { IsName self.now }
    {
        self.text.as_bytes()
    }
}

impl TryCopy for Name {
    fn copy(&self) -> Result<Name, NoMemory> {
        Ok(Name {
            text: self.text.clone()?,
        })
    }
}
