// Laws of the definitions: each function's contract is one, and its body does nothing.
ghost use Rattle.store_spec.specs.FileLaws.{HaveOwnFiles, HoldsOneEntry, HoldsOneStatus, OtherLengthsAreRefused, SpellsItsRow};
ghost use Rattle.store_spec.specs.Laws.{ChangesAreWhole, EmptyIsSettled, ImagesGoOn, MomentsGoOn, ReadsAsAnImage, RunsLeavePrefixes};

/// A directory as it reads is one that a crash may leave.
pub fn reads_as_an_image()
    ensures { ReadsAsAnImage }
{}

/// What one operation more does to what a crash leaves.
pub fn images_go_on()
    ensures { ImagesGoOn }
{}

/// What a crash since some moment leaves, from moment to moment.
pub fn moments_go_on()
    ensures { MomentsGoOn }
{}

/// A file holds one entry, in one version.
pub fn holds_one_entry()
    ensures { HoldsOneEntry }
{}

/// The bytes of one file.
pub fn spells_its_row()
    ensures { SpellsItsRow }
{}

/// A file gives the length of its text in one way only.
pub fn other_lengths_are_refused()
    ensures { OtherLengthsAreRefused }
{}

/// A status file reports one boot.
pub fn holds_one_status()
    ensures { HoldsOneStatus }
{}

/// No two definitions have one file.
pub fn have_own_files()
    ensures { HaveOwnFiles }
{}

/// An empty directory stands for no definitions.
pub fn empty_is_settled()
    ensures { EmptyIsSettled }
{}

/// A crash in the middle of a change leaves the map from before it or after it.
pub fn changes_are_whole()
    ensures { ChangesAreWhole }
{}

/// Of changes made one after another a crash leaves the first ones, with all that were acknowledged.
pub fn runs_leave_prefixes()
    ensures { RunsLeavePrefixes }
{}
