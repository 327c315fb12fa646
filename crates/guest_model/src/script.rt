// What a guest's script says.
ghost use Rattle.std.specs.Prelude.{◌≡◌, find};
ghost use Rattle.guest_model.specs.Script.{act_at, act_of, is_for, is_slow, is_stall, slow_of, slowness, stalls};

use virt_types::{ScriptAct, ScriptEntry};

/// What the guest does at this command of this boot, in place of an answer: the first entry counts.
pub fn act_at(script: &[ScriptEntry], boot: u64, command: u64) -> Option<ScriptAct>
    ensures { result ≡ act_at script.now boot command }
{
    act_of(entry_for(script, boot, command))
}

/// How many polls a copy of the guest's state takes: the first entry counts.
pub fn slowness(script: &[ScriptEntry]) -> u64
    ensures { result ≡ slowness script.now }
{
    slow_of(slow_entry(script))
}

/// Whether no poll takes anything off what is left of a copy.
pub fn stalls(script: &[ScriptEntry]) -> bool
    ensures { result ≡ stalls script.now }
{
    script.iter().any(|entry| is_stall(*entry))
}

fn entry_for(script: &[ScriptEntry], boot: u64, command: u64) -> Option<ScriptEntry>
    ensures { result ≡ find (is_for boot command) script.now }
{
    script
        .iter()
        .copied()
        .find(|entry| is_for(*entry, boot, command))
}

fn slow_entry(script: &[ScriptEntry]) -> Option<ScriptEntry>
    ensures { result ≡ find is_slow script.now }
{
    script.iter().copied().find(|entry| is_slow(*entry))
}

fn is_for(entry: ScriptEntry, at_boot: u64, at_command: u64) -> bool
    ensures { result ≡ is_for at_boot at_command entry }
{
    match entry {
        ScriptEntry::At {
            boot,
            command,
            act: _,
        } => boot == at_boot && command == at_command,
        _ => false,
    }
}

fn is_slow(entry: ScriptEntry) -> bool
    ensures { result ≡ is_slow entry }
{
    matches!(entry, ScriptEntry::Slow(_))
}

fn is_stall(entry: ScriptEntry) -> bool
    ensures { result ≡ is_stall entry }
{
    matches!(entry, ScriptEntry::Stall)
}

fn act_of(entry: Option<ScriptEntry>) -> Option<ScriptAct>
    ensures { result ≡ act_of entry }
{
    match entry {
        Some(ScriptEntry::At { act, .. }) => Some(act),
        _ => None,
    }
}

fn slow_of(entry: Option<ScriptEntry>) -> u64
    ensures { result ≡ slow_of entry }
{
    match entry {
        Some(ScriptEntry::Slow(polls)) => polls,
        _ => 1,
    }
}
