// Asks of a domain, answered by the keeper.
ghost use Rattle.std.specs.Prelude.{◌≡◌, ◌<◌, ◌^◌, IfSome};
ghost use Rattle.def_keeper.specs.Calls.{CanBeMade};
ghost use Rattle.store_asks.specs.Answers.{Changes, HasAnswered};
ghost use Rattle.store_asks.specs.Told.{ChangeTells, Tells};

use crate::answers::{change_answer, image_answer, lease_answer};
use crate::images::image_of;
use crate::put::put_of;
use def_keeper::{KeeperTurn, Opening, change_in, write_image_in};
use files_disk::Files;
use std::alloc::Global;
use store_spec::{BookKind, Change};
use virt_types::{Answer, Ask, NoMemory};

// Makes a change in the keeper's turn.
fn make<F: Files, K: Opening>(turn: &mut KeeperTurn<F, K>, change: Change) -> Answer
    requires chapter { turn.old.value.history.chapter < 2 ^ 62 }
    requires change { CanBeMade change }
    ensures answer { Changes F.told F.faults turn.old.pass.number change turn.old.value turn.new.value result }
    ensures told { ChangeTells turn.old.pass.number change result turn.new.value.history }
    ensures same { turn.new ≡ record turn.old { value = turn.new.value } }
{
    change_answer(change_in(turn, change))
}

/// Answers an ask of a domain in a turn of the keeper, whose pass makes the marks: a put or a drop of a definition by
/// that change, an image by writing it. A lease is refused, since there are no networks. None for a command to a
/// guest and the making of one, which are not for the keeper: nothing is done then. A definition whose text is longer
/// than a file may hold is answered as one that there is no memory for.
pub fn answer_in<F: Files, K: Opening>(
    alloc: Global,
    turn: &mut KeeperTurn<F, K>,
    ask: &Ask,
) -> Option<Answer>
    requires { turn.old.value.history.chapter < 2 ^ 62 }
    ensures answer { HasAnswered F.told F.faults turn.old.pass.number ask.now turn.old.value turn.new.value result }
    ensures told { IfSome result (λ a. Tells turn.old.pass.number ask.now a turn.new.value.history) }
    ensures same { turn.new ≡ record turn.old { value = turn.new.value } }
{
    match ask {
        Ask::Put {
            definition,
            autostart,
        } => match put_of(alloc, definition.as_ref(), *autostart) {
            Ok(change) => Some(make(turn, change)),
            Err(NoMemory) => Some(Answer::NoMemory),
        },
        Ask::Drop(uuid) => Some(make(
            turn,
            Change::Drop {
                kind: BookKind::Domain,
                uuid: *uuid,
            },
        )),
        Ask::WriteImage {
            name,
            kind,
            definition,
            running,
            bytes,
        } => match image_of(alloc, *kind, definition.as_ref(), *running, bytes.as_ref()) {
            Ok(image) => Some(image_answer(write_image_in(turn, name.as_ref(), &image))),
            Err(NoMemory) => Some(Answer::NoMemory),
        },
        Ask::Lease { .. } => Some(lease_answer()),
        Ask::Command(_) | Ask::Make { .. } => None,
    }
}
