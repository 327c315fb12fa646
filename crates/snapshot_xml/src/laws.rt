// What is printed of a snapshot reads back.
ghost use Rattle.std.specs.Prelude.{ℕ, List};
ghost use Rattle.virt_types.specs.declared.domain.Snap.{Snap as TheSnap};
ghost use Rattle.virt_types.specs.declared.domain.SnapInfo.{SnapInfo as TheSnapInfo};
ghost use Rattle.text_spec.specs.Written.{written};
ghost use Rattle.snapshot_xml.specs.ReadsAs.{IsSoundInfo, IsSoundSnapshot, ReadsAsSnapshot};
ghost use Rattle.snapshot_xml.specs.SnapshotText.{info_of, info_tree, kept_tree};

use text_spec::written_reads_back;
use xml_print::read_is_writable;

/// The text that is printed of what a caller says of a snapshot reads as that.
#[tactic(auto, using(crate::proofs::Again::info_again))]
pub fn printed_snapshot_reads_back()
    ensures { (s : TheSnapInfo) → IsSoundInfo s → ReadsAsSnapshot (written (info_tree s)) s }
{
    written_reads_back();
}

/// The text that is printed of a snapshot reads as its name and description.
#[tactic(auto, using(crate::proofs::Again::kept_again))]
pub fn kept_snapshot_reads_back()
    ensures { (s : TheSnap) → IsSoundSnapshot s
        → ReadsAsSnapshot (written (kept_tree s)) (info_of s) }
{
    written_reads_back();
}

/// What a whole text says of a snapshot is sound.
pub fn read_snapshot_is_sound()
    ensures { (text : List ℕ) → (s : TheSnapInfo) → ReadsAsSnapshot text s → IsSoundInfo s }
{
    read_is_writable();
}
