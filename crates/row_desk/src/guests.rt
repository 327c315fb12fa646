// What guests answer: a command goes to the monitor of one, and a new one is made.
ghost use Rattle.std.specs.Prelude.{◌≡◌};
ghost use Rattle.domain_obj.specs.Sending.{IsSent};
ghost use Rattle.row_desk.specs.Asking.{IsMade, unmade};

use monitor_link::{Guests, Link, Monitor};
use virt_types::{Answer, AnswerValue, Command, DomainDef, Fault};

/// Sends a command to a guest's monitor. Where there is none yet, the command is not sent, and is answered Ok without a
/// value.
pub(crate) fn send<M: Monitor>(monitor: &mut Option<M>, command: &Command) -> Answer
    ensures { IsSent M.Monitor command.now monitor.old monitor.new result }
{
    match monitor {
        Some(monitor) => monitor.ask(command),
        None => Answer::Ok(AnswerValue::Nothing),
    }
}

/// Makes a guest, and answers with its link. Where it could not be made, the link was lost. That is no answer of a guest
/// whose monitor is there already; of such a one it is answered that there is no memory.
pub(crate) fn make<G: Guests>(
    guests: &mut G,
    is_there: bool,
    definition: &DomainDef,
    boot: u64,
) -> (Answer, Option<Link<G>>)
    ensures { IsMade G.M.Monitor G.E.Ears G.Z.Killer definition.now boot is_there (G.faults guests.old) (G.faults guests.new) result.0 result.1 }
{
    match guests.make(definition, boot) {
        Ok(link) => (Answer::Ok(AnswerValue::Nothing), Some(link)),
        Err(fault) => (unmade(fault, is_there), None),
    }
}

// Why there is no guest.
fn unmade(fault: Fault, is_there: bool) -> Answer
    ensures { result ≡ unmade fault is_there }
{
    match fault {
        Fault::Failed if !is_there => Answer::Lost,
        _ => Answer::NoMemory,
    }
}
