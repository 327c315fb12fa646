// What a modelled guest answers to a command.
ghost use Rattle.std.specs.Prelude.{◌≡◌, ◌++◌, IfOk, OnErr, OnOk};
ghost use Rattle.std.specs.Int.{w64, to_be_bytes};
ghost use Rattle.guest_model.specs.Machine.{acted, alive, kicked, lived, loaded, next_command, obeyed, polled, reaction, shutdown};
ghost use Rattle.guest_model.specs.Reacting.{TakesMemory};
ghost use Rattle.monitor_link.specs.Causes.{IsOfGuest};

use crate::guest::SimGuest;
use crate::happening::Happening;
use crate::queue::Queue;
use crate::script::{act_at, slowness, stalls};
use virt_types::{Answer, AnswerValue, Bytes, Command, EndReason, GuestEvent, NoMemory, ScriptAct};

/// The answer to a command. Where there is no memory for it, nothing changes.
#[inline]
pub fn react(guest: &mut SimGuest, command: &Command) -> Result<Answer, NoMemory>
    ensures answer { IfOk result (λ it. it ≡ (reaction guest.old command.now).answer) }
    ensures guest { OnOk result (guest.new ≡ (reaction guest.old command.now).guest) }
    ensures own { IfOk result (λ it. IsOfGuest it) }
    ensures err { OnErr result (guest.new ≡ guest.old) }
    ensures memory { OnErr result (TakesMemory command.now) }
{
    match guest.ended {
        Some(reason) => Ok(Answer::Ended(reason)),
        None => alive(guest, command),
    }
}

// The answer of a guest that has not ended.
fn alive(guest: &mut SimGuest, command: &Command) -> Result<Answer, NoMemory>
    ensures answer { IfOk result (λ it. it ≡ (alive guest.old command.now).answer) }
    ensures guest { OnOk result (guest.new ≡ (alive guest.old command.now).guest) }
    ensures own { IfOk result (λ it. IsOfGuest it) }
    ensures err { OnErr result (guest.new ≡ guest.old) }
    ensures memory { OnErr result (TakesMemory command.now) }
{
    let number = next_command(guest);
    let act = act_at(guest.script.as_slice(), guest.boot, number);
    let answer = lived(guest, act, command)?;
    guest.commands = number;
    Ok(answer)
}

fn lived(
    guest: &mut SimGuest,
    act: Option<ScriptAct>,
    command: &Command,
) -> Result<Answer, NoMemory>
    ensures answer { IfOk result (λ it. it ≡ (lived guest.old act command.now).answer) }
    ensures guest { OnOk result (guest.new ≡ (lived guest.old act command.now).guest) }
    ensures own { IfOk result (λ it. IsOfGuest it) }
    ensures err { OnErr result (guest.new ≡ guest.old) }
    ensures memory { OnErr result (TakesMemory command.now) }
{
    match act {
        Some(act) => Ok(acted(guest, act)),
        None => obeyed(guest, command),
    }
}

// The number of the command that comes next.
fn next_command(guest: &SimGuest) -> u64
    ensures { result ≡ next_command guest.now }
{
    guest.commands.saturating_add(1).min(1 << 62)
}

// What the script has in place of an answer.
fn acted(guest: &mut SimGuest, act: ScriptAct) -> Answer
    ensures answer { result ≡ (acted guest.old act).answer }
    ensures guest { guest.new ≡ (acted guest.old act).guest }
    ensures own { IsOfGuest result }
{
    match act {
        ScriptAct::End => {
            guest.ended = Some(EndReason::Crashed);
            Answer::Ended(EndReason::Crashed)
        }
        ScriptAct::Refuse => Answer::Refused(1),
        ScriptAct::Lost => Answer::Lost,
    }
}

// What a live guest answers where the script has nothing.
fn obeyed(guest: &mut SimGuest, command: &Command) -> Result<Answer, NoMemory>
    ensures answer { IfOk result (λ it. it ≡ (obeyed guest.old command.now).answer) }
    ensures guest { OnOk result (guest.new ≡ (obeyed guest.old command.now).guest) }
    ensures own { IfOk result (λ it. IsOfGuest it) }
    ensures err { OnErr result (guest.new ≡ guest.old) }
    ensures memory { OnErr result (TakesMemory command.now) }
{
    let value = match command {
        Command::QueryMemory => AnswerValue::Number(guest.memory),
        Command::SetMemory(kib) => {
            guest.memory = *kib;
            AnswerValue::Nothing
        }
        Command::CopyBegin => {
            guest.rest = slowness(guest.script.as_slice());
            AnswerValue::Nothing
        }
        Command::CopyPoll => {
            guest.rest = polled(guest);
            AnswerValue::Number(guest.rest)
        }
        Command::CopyTake => AnswerValue::Bytes(state_of(guest)?),
        Command::LoadState(bytes) => return Ok(loaded(guest, bytes.as_slice())),
        Command::Powerdown => {
            shut_down(&mut guest.queue)?;
            AnswerValue::Nothing
        }
        Command::Quit => {
            guest.ended = Some(EndReason::Killed);
            AnswerValue::Nothing
        }
        Command::Kick(number) => {
            kicked(&mut guest.queue, *number)?;
            AnswerValue::Nothing
        }
        _ => AnswerValue::Nothing,
    };
    Ok(Answer::Ok(value))
}

fn polled(guest: &SimGuest) -> u64
    ensures { result ≡ polled guest.now }
{
    if stalls(guest.script.as_slice()) {
        guest.rest
    } else {
        guest.rest.saturating_sub(1)
    }
}

// Its state as bytes: the memory that it has.
fn state_of(guest: &SimGuest) -> Result<Bytes, NoMemory>
    ensures { IfOk result (λ it. it ≡ to_be_bytes w64 guest.now.memory) }
{
    Bytes::copy_of(guest.queue.allocator(), &guest.memory.to_be_bytes())
}

fn loaded(guest: &mut SimGuest, bytes: &[u8]) -> Answer
    ensures answer { result ≡ (loaded bytes.now guest.old).answer }
    ensures guest { guest.new ≡ (loaded bytes.now guest.old).guest }
    ensures own { IsOfGuest result }
{
    match bytes {
        [a, b, c, d, e, f, g, h] => {
            guest.memory = u64::from_be_bytes([*a, *b, *c, *d, *e, *f, *g, *h]);
            Answer::Ok(AnswerValue::Nothing)
        }
        _ => Answer::Refused(2),
    }
}

// It shuts down by itself.
fn shut_down(queue: &mut Queue) -> Result<(), NoMemory>
    ensures ok { OnOk result (queue.new ≡ queue.old ++ shutdown) }
    ensures err { OnErr result (queue.new ≡ queue.old) }
{
    queue.push_both(
        Happening::Event(GuestEvent::Shutdown),
        Happening::End(EndReason::Shutdown),
    )
}

// It does something of its own.
fn kicked(queue: &mut Queue, number: u32) -> Result<(), NoMemory>
    ensures ok { OnOk result (queue.new ≡ queue.old ++ kicked number) }
    ensures err { OnErr result (queue.new ≡ queue.old) }
{
    match number {
        1 => shut_down(queue),
        2 => queue.push(Happening::Event(GuestEvent::Panic)),
        3 => queue.push(Happening::End(EndReason::Crashed)),
        4 => queue.push(Happening::Event(GuestEvent::Stop)),
        5 => queue.push(Happening::Event(GuestEvent::Resume)),
        _ => Ok(()),
    }
}
