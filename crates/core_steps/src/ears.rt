// The ears of a guest, lent to a pass that hears while no turn is held.
ghost use Rattle.std.specs.Prelude.{◌≡◌, ◌⊎◌, ◌≤◌, ◌<◌, ◌+◌, ℕ, List, IfOk, None, OnErr, OnOk, Some};
ghost use Rattle.std.specs.Vec.{vec_capacity, vec_len};
ghost use Rattle.domain_spec.specs.Cell.{HeldEvent as Held};
ghost use Rattle.domain_spec.specs.Reading.{is_live};
ghost use Rattle.core_log.specs.Record.{force_of};
ghost use Rattle.core_steps.specs.Looking.{with_room};
ghost use Rattle.core_steps.specs.Rooms.{HasEnd, IsKept, marks_needed, rooms_lent, rooms_needed};
ghost use Rattle.core_steps.specs.Guests.{boot_to_hear, ears_lent, ears_told};

use crate::events::MOST_HELD;
use crate::{HeldEvent, OneRoom};
use core_log::Record;
use core_rules::{is_live, live_boot};
use history_spec::Stamp;
use std::alloc::Global;
use std::marker::Model;
use virt_types::NoMemory;

/// Ears that are out: by which pass, of which boot, and whether what they heard was told. Until then there is
/// room set aside for that. Contracts see them with the number of their pass.
#[derive(Drop)]
pub struct LentEars {
    by: Stamp,
    boot: u64,
    told: bool,
}

impl Model for LentEars {
    ghost use Rattle.domain_spec.specs.Cell.{LentEars as Lent};

    ghost Value = { Lent };

    ghost view = { λ e. record { number = e.by.number; boot = e.boot; told = e.told } };
}

impl LentEars {
    // The ears of this boot, that a pass gets.
    fn new(by: Stamp, boot: u64) -> LentEars
        ensures { ears_lent by.number (Some boot) None ≡ Some result }
    {
        LentEars {
            by,
            boot,
            told: false,
        }
    }

    /// Their boot.
    pub fn boot(&self) -> u64
        ensures { result ≡ self.now.boot }
    {
        self.boot
    }

    /// Whether what they heard was told.
    pub fn is_told(&self) -> bool
        ensures { result ≡ self.now.told }
    {
        self.told
    }
}

/// How many rooms the ears need that are out: one until they have told something.
pub fn rooms_lent(ears: &Option<LentEars>) -> usize
    ensures { result ≡ rooms_lent ears.now }
{
    match ears {
        Some(ears) if !ears.is_told() => 1,
        _ => 0,
    }
}

// What the ears heard that are out is told.
pub(crate) fn tell(ears: &mut Option<LentEars>)
    ensures { ears.new ≡ ears_told ears.old }
{
    if let Some(ears) = ears {
        ears.told = true;
    }
}

// The boot that is to be heard.
fn boot_to_hear(kept: &Record, held: &Vec<HeldEvent>, ears: &Option<LentEars>) -> Option<u64>
    ensures { result ≡ boot_to_hear (force_of kept.now).state held.now.items ears.now }
{
    match ears {
        None if held.len() < MOST_HELD => live_boot(kept.state()),
        _ => None,
    }
}

// How many rooms the call needs that is away.
#[tactic(auto, using(crate::proofs::Keeping::needed_if))]
fn rooms_needed(kept: &Record) -> usize
    ensures { result ≡ rooms_needed kept.now.course }
{
    if kept.is_away() { 1 } else { 0 }
}

// One more room, where so many are not there yet.
fn grow(rooms: &mut Vec<OneRoom>, alloc: Global, needed: usize) -> Result<(), NoMemory>
    requires { needed ≤ vec_len rooms.old + 1 }
    ensures grown { (vec_len rooms.old ≤ vec_len rooms.new) × (vec_len rooms.new ≤ vec_len rooms.old + 1) }
    ensures ok { OnOk result (needed ≤ vec_len rooms.new) }
    ensures err { OnErr result (vec_len rooms.new ≡ vec_len rooms.old) }
    ensures most { (vec_len rooms.new ≡ vec_len rooms.old) ⊎ (vec_len rooms.new ≤ needed) }
{
    if rooms.len() < needed {
        rooms.reserve(1)?;
        rooms.push_reserved(OneRoom::new(alloc)?);
    }
    Ok(())
}

// Room for one thing more that ears tell: for its mark, for what listeners hear of it, and a place among the
// events that are held.
#[tactic(auto, using(crate::proofs::Keeping::marks_most, crate::proofs::Keeping::rooms_most, crate::proofs::Keeping::end_made))]
fn make_room(
    kept: &mut Record,
    held: &mut Vec<HeldEvent>,
    rooms: &mut Vec<OneRoom>,
    alloc: Global,
) -> Result<(), NoMemory>
    requires enough { vec_len held.old + rooms_needed kept.old.course ≤ vec_len rooms.old }
    requires few { (vec_len held.old < 64) × (vec_len rooms.old ≤ 128) }
    ensures same { kept.new ≡ with_room kept.old kept.new.spare }
    ensures spare { kept.old.spare ≤ kept.new.spare }
    ensures held { (held.new.items ≡ held.old.items) × (vec_len held.new ≡ vec_len held.old) }
    ensures places { vec_capacity held.old ≤ vec_capacity held.new }
    ensures few { vec_len rooms.new ≤ 128 }
    ensures marks { OnOk result (marks_needed kept.new.course + vec_len rooms.new ≤ kept.new.spare) }
    ensures room { OnOk result (vec_len held.new + rooms_needed kept.new.course + 1 ≤ vec_len rooms.new) }
    ensures place { OnOk result (vec_len held.new < vec_capacity held.new) }
    ensures ends { HasEnd kept.old (vec_len rooms.old) → HasEnd kept.new (vec_len rooms.new) }
    ensures err { OnErr result (vec_len rooms.new ≡ vec_len rooms.old) }
{
    kept.reserve(4 + rooms.len())?;
    held.reserve(1)?;
    grow(rooms, alloc, held.len() + rooms_needed(kept) + 1)
}

/// Lends the ears of the live boot, with room for one thing that they tell; so what they tell takes no memory.
/// None where no boot is live, the ears are out, or 64 events are held. Where there is no memory they stay.
pub fn lend(
    kept: &mut Record,
    held: &mut Vec<HeldEvent>,
    rooms: &mut Vec<OneRoom>,
    ears: &mut Option<LentEars>,
    alloc: Global,
    by: Stamp,
) -> Result<Option<u64>, NoMemory>
    requires kept { IsKept kept.old held.old.items ears.old (vec_len rooms.old) }
    requires places { vec_len held.old + rooms_lent ears.old ≤ vec_capacity held.old }
    ensures same { kept.new ≡ with_room kept.old kept.new.spare }
    ensures held { held.new.items ≡ held.old.items }
    ensures ok { IfOk result (λ boot. boot ≡ boot_to_hear (force_of kept.old).state held.old.items ears.old) }
    ensures lent { IfOk result (λ boot. ears.new ≡ ears_lent by.number boot ears.old) }
    ensures err { OnErr result (ears.new ≡ ears.old) }
    ensures places { vec_len held.new + rooms_lent ears.new ≤ vec_capacity held.new }
    ensures kept { IsKept kept.new held.new.items ears.new (vec_len rooms.new) }
    ensures ends { HasEnd kept.old (vec_len rooms.old) → HasEnd kept.new (vec_len rooms.new) }
{
    match boot_to_hear(kept, held, ears) {
        Some(boot) => match make_room(kept, held, rooms, alloc) {
            Ok(()) => {
                *ears = Some(LentEars::new(by, boot));
                Ok(Some(boot))
            }
            Err(NoMemory) => Err(NoMemory),
        },
        None => Ok(None),
    }
}

/// Takes the ears back. The answer is whether their boot is live still; else they are of no more use.
pub fn take_back(kept: &Record, ears: &mut Option<LentEars>, boot: u64) -> bool
    ensures live { result ≡ is_live (force_of kept.now).state boot }
    ensures ears { ears.new ≡ None }
    ensures kept { (held : List Held) → (rooms : ℕ) → IsKept kept.now held ears.old rooms → IsKept kept.now held ears.new rooms }
{
    *ears = None;
    is_live(kept.state(), boot)
}
