// Where the last mark of a pass is in a chapter.
ghost use Rattle.std.specs.Prelude.{◌≡◌, length};
ghost use Rattle.core_steps.specs.Places.{is_of_pass, last_place};

use core_log::Record;
use domain_spec::Mark;
use history_spec::Stamp;
use virt_types::Front;

// Whether a mark bears the number of a pass.
fn is_of_pass(mark: &Mark<Stamp>) -> bool
    ensures { result ≡ is_of_pass mark.now }
{
    match mark {
        Mark::Exit { .. } | Mark::Event { .. } | Mark::Cut { .. } => false,
        _ => true,
    }
}

// How many of these marks there are up to the last one of a pass.
#[tactic(auto, using(crate::proofs::LastMark::last_in, crate::proofs::LastMark::last_out))]
fn last_place(marks: &[Mark<Stamp>]) -> usize
    ensures { result ≡ last_place marks.now }
{
    match marks {
        [before @ .., last] if !is_of_pass(last) => last_place(before),
        _ => marks.len(),
    }
}

/// The place of the chapter's last mark that is no boot's end, no guest's event and no cut; before all marks where
/// there is none.
#[tactic(auto, using(crate::proofs::LastMark::last_numbered))]
pub fn last(kept: &Record) -> Front
    ensures chapter { result.chapter ≡ kept.now.history.chapter }
    ensures marks { result.marks ≡ last_place kept.now.history.marks }
{
    Front {
        chapter: kept.chapter(),
        marks: last_place(kept.marks()) as u64,
    }
}
