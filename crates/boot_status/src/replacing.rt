// In the store, what was reported of a boot is replaced.
ghost use Rattle.std.specs.Prelude.{◌≡◌, ◌≤◌, IsErrOf};
ghost use Rattle.outside_spec.specs.Faults.{Rose};
ghost use Rattle.virt_types.specs.Below.types_base.declared.memory.Fault.TheVariants as fault;
ghost use Rattle.boot_status.specs.Storing.{Exchanges, IsReplaced};

use def_keeper::{Keeper, KeeperTurn, Opening};
use files_disk::Files;
use virt_types::{Fault, Status, Uuid};

// Removes the status of one domain and puts that of another, also where the first failed.
fn exchange<F: Files, K: Opening>(
    keeper: &mut Keeper<F, K>,
    was: Uuid,
    now: &Status,
) -> Result<(), Fault>
    ensures files { Exchanges was now.now (F.told keeper.old.files) (F.told keeper.new.files) result }
    ensures rest { keeper.new ≡ record keeper.old { files = keeper.new.files } }
    ensures cause { IsErrOf result fault.Failed → Rose (F.faults keeper.old.files) (F.faults keeper.new.files) }
    ensures counts { F.faults keeper.old.files ≤ F.faults keeper.new.files }
{
    let dropped = keeper.drop_status(was);
    let put = keeper.put_status(now);
    dropped.and(put)
}

fn replace<F: Files, K: Opening>(
    keeper: &mut Keeper<F, K>,
    before: &Option<Status>,
    after: &Option<Status>,
) -> Result<(), Fault>
    ensures { IsReplaced F.told F.faults before.now after.now keeper.old keeper.new result }
{
    match (before, after) {
        (None, None) => Ok(()),
        (None, Some(now)) => keeper.put_status(now),
        (Some(was), None) => keeper.drop_status(was.uuid),
        (Some(was), Some(now)) => {
            if was.uuid == now.uuid {
                keeper.put_status(now)
            } else {
                exchange(keeper, was.uuid, now)
            }
        }
    }
}

/// In a turn of the store, writes what is live, and removes what was written before of a boot that has ended.
pub(crate) fn replace_in<F: Files, K: Opening>(
    turn: &mut KeeperTurn<F, K>,
    before: &Option<Status>,
    after: &Option<Status>,
) -> Result<(), Fault>
    ensures replaced { IsReplaced F.told F.faults before.now after.now turn.old.value turn.new.value result }
    ensures same { turn.new ≡ record turn.old { value = turn.new.value } }
{
    replace(turn.value(), before, after)
}
