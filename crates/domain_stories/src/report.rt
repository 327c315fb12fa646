// What a desk was asked, of no bytes.
ghost use Rattle.std.specs.Borrow.{ftrue};
ghost use Rattle.std.specs.Prelude.{◌≡◌, ◌∷◌, ◌++◌, [], List};
ghost use Rattle.domain_spec.specs.Types.{Answer as TheAnswer, Ask as TheAsk};
ghost use Rattle.domain_threads.specs.Below.domain_obj.OfCells.{told};

use std::marker::{Model, PhantomData};
use virt_types::{Answer, Ask};

/// What a desk was asked, each ask with its answer, but for those for which there was no memory. Contracts alone see it, and
/// it takes no bytes.
#[derive(Drop)]
pub(crate) struct Report {
    of: PhantomData<u64>,
    pub ghost asked: { List (TheAsk × TheAnswer) },
}

impl Model for Report {
    ghost also_owns = { λ _. ftrue };
}

// It owns nothing.
unsafe impl Send for Report {}

unsafe impl Sync for Report {}

impl Report {
    /// The report that the caller names.
    fn named() -> Report
        ghost asked: { List (TheAsk × TheAnswer) }
        ensures { result.asked ≡ asked }
    {
        Report { of: PhantomData }
    }

    /// Nothing was asked yet.
    pub(crate) fn new() -> Report
        ensures { result.asked ≡ [] }
    {
        Report::named()
    }

    /// The same, and this ask with its answer.
    pub(crate) fn and(&self, asked: &Ask, answer: &Answer) -> Report
        ensures { result.asked ≡ self.now.asked ++ told (asked.now ∷ []) (answer.now ∷ []) }
    {
        after(self, asked, answer)
    }
}

// The asks are named in two steps, since a pick sees the callee's arguments alone.
fn after(_old: &Report, _asked: &Ask, _answer: &Answer) -> Report
    ghost asked: { List (TheAsk × TheAnswer) }
    ensures { result.asked ≡ asked }
{
    Report::named()
}
