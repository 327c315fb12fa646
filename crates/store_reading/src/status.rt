// Status files, read.
ghost use Rattle.std.specs.Prelude.{◌≡◌, ◌≤◌, ◌^◌, IfNone, IfOk, IfSome, codes};
ghost use Rattle.virt_types.specs.declared.operation.OpKind.{OpKind as TheKind};
ghost use Rattle.virt_types.specs.declared.operation.Phase.{Phase as ThePhase};
ghost use Rattle.virt_types.specs.declared.run_state.DomainState.{DomainState as TheState};
ghost use Rattle.std.specs.Bool.{Decides};
ghost use Rattle.std.specs.declared.option.Option.{Option};
ghost use Rattle.virt_types.specs.Numbers.{job_number, op_number, phase_number, state_number};
ghost use Rattle.store_reading.specs.Status.{HasNumber, IsLineOf, IsNumberOf, IsToldBy, Names, TellsStatus};

use crate::file_name::read_status_name;
use crate::lines::{cut, strip, strip_end};
use crate::words::{name_of, tells};
use std::alloc::Global;
use std::str;
use virt_types::{DomainState, NoMemory, OpKind, Phase, Status, Uuid};

/// The numbers and the name of a status file's line.
#[derive(Clone, Copy)]
pub(crate) struct StatusLine<'a> {
    pub boot: u64,
    pub state: u64,
    pub job: u64,
    pub phase: u64,
    pub name: &'a [u8],
}

// The number that these digits spell.
fn number_of(digits: &[u8]) -> Option<u64>
    ensures { IsNumberOf digits.now result }
{
    let text = match str::from_utf8(digits) {
        Ok(text) => text,
        Err(_) => return None,
    };
    match text.parse::<u64>() {
        Ok(number) => {
            if tells(digits, number) {
                return Some(number);
            }
            None
        }
        Err(_) => None,
    }
}

// A number after a label, and what comes after the space that follows it.
fn numbered<'a>(label: &[u8], bytes: &'a [u8]) -> Option<(u64, &'a [u8])>
    ensures { HasNumber label.now bytes.now result }
{
    match strip(label, bytes) {
        Some(rest) => match cut(b' ', rest) {
            Some((digits, rest)) => match number_of(digits) {
                Some(number) => Some((number, rest)),
                None => None,
            },
            None => None,
        },
        None => None,
    }
}

// The number after each label, which is what comes first in the bytes.
fn boot_of(bytes: &[u8]) -> Option<(u64, &[u8])>
    ensures { HasNumber (codes "run 1 boot=") bytes.now result }
{
    numbered(b"run 1 boot=".as_slice(), bytes)
}

fn state_of(bytes: &[u8]) -> Option<(u64, &[u8])>
    ensures { HasNumber (codes "state=") bytes.now result }
{
    numbered(b"state=".as_slice(), bytes)
}

fn job_of(bytes: &[u8]) -> Option<(u64, &[u8])>
    ensures { HasNumber (codes "op=") bytes.now result }
{
    numbered(b"op=".as_slice(), bytes)
}

fn phase_of(bytes: &[u8]) -> Option<(u64, &[u8])>
    ensures { HasNumber (codes "phase=") bytes.now result }
{
    numbered(b"phase=".as_slice(), bytes)
}

// The name after its label, up to the line feed at the end.
fn named(bytes: &[u8]) -> Option<&[u8]>
    ensures { Names bytes.now result }
{
    match strip(b"name=".as_slice(), bytes) {
        Some(rest) => strip_end(b"\n".as_slice(), rest),
        None => None,
    }
}

// The line of a status file.
fn line_of(bytes: &[u8]) -> Option<StatusLine<'_>>
    ensures { IsLineOf bytes.now result }
{
    let (boot, rest) = match boot_of(bytes) {
        Some(read) => read,
        None => return None,
    };
    let (state, rest) = match state_of(rest) {
        Some(read) => read,
        None => return None,
    };
    let (job, rest) = match job_of(rest) {
        Some(read) => read,
        None => return None,
    };
    let (phase, rest) = match phase_of(rest) {
        Some(read) => read,
        None => return None,
    };
    match named(rest) {
        Some(name) => Some(StatusLine {
            boot,
            state,
            job,
            phase,
            name,
        }),
        None => None,
    }
}

// What has this number.
fn state_numbered(number: u64) -> Option<DomainState>
    ensures some { IfSome result (λ state. state_number state ≡ number) }
    ensures none { IfNone result ((state : TheState) → state_number state ≡ number → ⊥) }
{
    match u32::try_from(number) {
        Ok(number) => DomainState::of_number(number),
        Err(_) => None,
    }
}

fn phase_numbered(number: u64) -> Option<Phase>
    ensures some { IfSome result (λ phase. phase_number phase ≡ number) }
    ensures none { IfNone result ((phase : ThePhase) → phase_number phase ≡ number → ⊥) }
{
    match u32::try_from(number) {
        Ok(number) => Phase::of_number(number),
        Err(_) => None,
    }
}

fn kind_numbered(number: u64) -> Option<OpKind>
    ensures some { IfSome result (λ kind. op_number kind ≡ number) }
    ensures none { IfNone result ((kind : TheKind) → op_number kind ≡ number → ⊥) }
{
    match u32::try_from(number) {
        Ok(number) => OpKind::of_number(number),
        Err(_) => None,
    }
}

// The operation of this number, which may be none.
fn job_numbered(number: u64) -> Option<Option<OpKind>>
    ensures some { IfSome result (λ job. job_number job ≡ number) }
    ensures none { IfNone result ((job : Option TheKind) → job_number job ≡ number → ⊥) }
{
    if number == 0 {
        return Some(None);
    }
    match kind_numbered(number) {
        Some(kind) => Some(Some(kind)),
        None => None,
    }
}

// A boot's number, from 1 to 2^62.
fn is_boot(number: u64) -> bool
    ensures { Decides result ((1 ≤ number) × (number ≤ 2 ^ 62)) }
{
    number >= 1 && number <= 1 << 62
}

// What a line with these numbers reports.
fn status_of(alloc: Global, uuid: Uuid, line: &StatusLine<'_>) -> Result<Option<Status>, NoMemory>
    ensures { IfOk result (IsToldBy uuid line.now) }
{
    if !is_boot(line.boot) {
        return Ok(None);
    }
    let state = match state_numbered(line.state) {
        Some(state) => state,
        None => return Ok(None),
    };
    let op = match job_numbered(line.job) {
        Some(op) => op,
        None => return Ok(None),
    };
    let phase = match phase_numbered(line.phase) {
        Some(phase) => phase,
        None => return Ok(None),
    };
    match name_of(alloc, line.name) {
        Ok(Some(name)) => Ok(Some(Status {
            uuid,
            name,
            boot: line.boot,
            state,
            op,
            phase,
        })),
        Ok(None) => Ok(None),
        Err(NoMemory) => Err(NoMemory),
    }
}

/// What a status file of this name and these bytes reports; none where it reports nothing.
pub fn read_status(alloc: Global, name: &[u8], bytes: &[u8]) -> Result<Option<Status>, NoMemory>
    ensures { IfOk result (TellsStatus name.now bytes.now) }
{
    let uuid = match read_status_name(name) {
        Some(uuid) => uuid,
        None => return Ok(None),
    };
    match line_of(bytes) {
        Some(line) => status_of(alloc, uuid, &line),
        None => Ok(None),
    }
}
