// The image that is read for a restore.
ghost use Rattle.std.specs.Prelude.{◌≡◌};
ghost use Rattle.domain_texts.specs.Below.session_spec.Refused.{refusal};
ghost use Rattle.virt_types.specs.Memory.{UnlessNoMemory};
ghost use Rattle.store_asks.specs.Restoring.{Fails, Reads, bad as bad_image, saved_in, unread};

use def_keeper::{KeeperTurn, Opening, read_image_in};
use domain_texts::read_domain;
use files_disk::Files;
use std::alloc::Global;
use store_spec::{Image, ImageFault};
use virt_types::{Bytes, DomainDef, ImageKind, Name, NoMemory, OrNoMemory, Refusal, RefusalCode};

/// A guest that was saved.
pub struct SavedGuest {
    /// Its definition, as the image has it.
    pub definition: DomainDef,
    /// Whether it ran.
    pub running: bool,
    /// Its state.
    pub state: Bytes,
}

impl Drop for SavedGuest {
    fn drop(self) {
        let SavedGuest {
            definition: _,
            running: _,
            state: _,
        } = self;
    }
}

impl SavedGuest {
    /// Its definition, whether it ran, and its state. With a `Drop` of its own it can be taken apart nowhere else.
    pub fn into_parts(self) -> (DomainDef, bool, Bytes)
        ensures { result ≡ (self.definition, self.running, self.state) }
    {
        let SavedGuest {
            definition,
            running,
            state,
        } = self;
        (definition, running, state)
    }
}

/// A guest that was read for a restore, or why there is none.
pub type SavedRead = Result<SavedGuest, OrNoMemory<Refusal>>;

fn refuse(alloc: Global, code: RefusalCode, kept: &str) -> OrNoMemory<Refusal>
    ensures { Fails result (refusal code kept.now) }
{
    match Refusal::new(alloc, code, kept) {
        Ok(why) => OrNoMemory::Fault(why),
        Err(NoMemory) => OrNoMemory::NoMemory,
    }
}

// The refusal of an image that is bad.
fn bad(alloc: Global) -> OrNoMemory<Refusal>
    ensures { Fails result bad_image }
{
    refuse(alloc, RefusalCode::OperationFailed, "class 22")
}

// Why no image was read.
fn unread(alloc: Global, fault: ImageFault) -> OrNoMemory<Refusal>
    ensures { Fails result (unread fault) }
{
    match fault {
        ImageFault::Device => refuse(alloc, RefusalCode::StoreFailed, ""),
        ImageFault::NoImage => refuse(alloc, RefusalCode::OperationFailed, "class 21"),
        ImageFault::BadImage { .. } => bad(alloc),
    }
}

// The guest that an image is of.
fn saved_in(alloc: Global, image: Image) -> SavedRead
    ensures { UnlessNoMemory result (saved_in image) }
{
    let Image {
        kind,
        running,
        text,
        saved,
    } = image;
    match kind {
        ImageKind::Save => match read_domain(alloc, text.as_bytes()) {
            Ok(definition) => Ok(SavedGuest {
                definition,
                running,
                state: saved,
            }),
            Err(OrNoMemory::Fault(kept)) => {
                Err(refuse(alloc, RefusalCode::BadDefinition, kept.as_str()))
            }
            Err(OrNoMemory::NoMemory) => Err(OrNoMemory::NoMemory),
        },
        ImageKind::Dump => Err(bad(alloc)),
    }
}

/// Reads the image of a save for a restore, in a turn of the keeper, whose pass makes the mark: the guest that it is
/// of. It is refused with class 21 where there is no image, with class 22 where the file is no image or not that of a
/// save, as a bad definition where its text has no reading, and where the store failed.
pub fn read_saved_in<F: Files, K: Opening>(
    alloc: Global,
    turn: &mut KeeperTurn<F, K>,
    name: &Name,
) -> SavedRead
    ensures read { Reads F.told F.faults turn.old.pass.number name.now turn.old.value turn.new.value result }
    ensures same { turn.new ≡ record turn.old { value = turn.new.value } }
{
    match read_image_in(turn, name) {
        Ok(image) => saved_in(alloc, image),
        Err(OrNoMemory::Fault(fault)) => Err(unread(alloc, fault)),
        Err(OrNoMemory::NoMemory) => Err(OrNoMemory::NoMemory),
    }
}
