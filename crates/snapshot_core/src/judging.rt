// The tests of the calls on snapshots. A call that fails one ends with its refusal; one that passes
// gets its texts back.
ghost use Rattle.std.specs.Prelude.{◌∷◌, []};
ghost use Rattle.domain_spec.specs.Tests.{absent, crashed, first_refusal, name_there, operation_tests, snapshots_full};
ghost use Rattle.domain_spec.specs.Types.call;
ghost use Rattle.snapshot_core.specs.Judged.{Judged};

use core_rules::{CallEnd, Reason, Texts, has_crashed, state_in};
use virt_types::{Domain, Name, RefusalCode, SnapInfo};

// How many snapshots a domain may have.
const MOST: usize = 64;

// How many boots can be numbered.
const MOST_BOOTS: u64 = 1 << 62;

/// Who deletes a snapshot names one that is there.
pub(crate) fn judge_deletion(domain: &Domain, name: &Name, texts: Texts) -> Result<Texts, CallEnd>
    ensures { Judged result (first_refusal (absent domain.now name.now ∷ [])) }
{
    match domain.snaps.find(name) {
        None => Err(texts.refused_named(RefusalCode::NoSnapshot, name)),
        Some(_) => Ok(texts),
    }
}

// A snapshot that gets a name gets one that no other has.
fn judge_name(domain: &Domain, name: &Option<Name>, texts: Texts) -> Result<Texts, CallEnd>
    ensures { Judged result (first_refusal (name_there domain.now name.now ∷ [])) }
{
    match name {
        None => Ok(texts),
        Some(name) => match domain.snaps.find(name) {
            None => Ok(texts),
            Some(_) => Err(texts.refused_named(RefusalCode::SnapshotExists, name)),
        },
    }
}

fn judge_room(domain: &Domain, texts: Texts) -> Result<Texts, CallEnd>
    ensures { Judged result (first_refusal (snapshots_full domain.now ∷ crashed domain.now ∷ [])) }
{
    if domain.snaps.len() >= MOST {
        return Err(texts.refused(Reason::ListFull(64)));
    }
    if has_crashed(&domain.live) {
        return Err(texts.refused(Reason::Invalid(state_in(&domain.live))));
    }
    Ok(texts)
}

/// Who takes a snapshot gives it a name of its own, and there is room for one more, and no guest that
/// crashed.
pub(crate) fn judge_snapshot(
    domain: &Domain,
    info: &SnapInfo,
    texts: Texts,
) -> Result<Texts, CallEnd>
    ensures { Judged result (first_refusal (operation_tests domain.now (call.Snapshot info.now))) }
{
    match judge_name(domain, &info.name, texts) {
        Err(end) => Err(end),
        Ok(texts) => judge_room(domain, texts),
    }
}

/// Who goes back to a snapshot names one that is there; where it needs a new boot, one more can be
/// numbered.
pub(crate) fn judge_revert(domain: &Domain, name: &Name, texts: Texts) -> Result<Texts, CallEnd>
    ensures { Judged result (first_refusal (operation_tests domain.now (call.Revert name.now))) }
{
    match domain.snaps.find(name) {
        None => Err(texts.refused_named(RefusalCode::NoSnapshot, name)),
        Some(snap) => {
            if domain.live.is_none() && snap.run.is_some() && domain.boots >= MOST_BOOTS {
                Err(texts.refused(Reason::BootsSpent))
            } else {
                Ok(texts)
            }
        }
    }
}
