// What is printed of pools and volumes reads back, and what is read is sound.
ghost use Rattle.std.specs.Prelude.{◌≡◌, ℕ, List};
ghost use Rattle.types_base.specs.declared.storage_def.PoolDef.{PoolDef as ThePool};
ghost use Rattle.types_base.specs.declared.storage_def.VolDef.{VolDef as TheVolume};
ghost use Rattle.text_spec.specs.Fill.{IsUuidFilled};
ghost use Rattle.text_spec.specs.Written.{written};
ghost use Rattle.storage_xml.specs.PoolText.{pool_tree};
ghost use Rattle.storage_xml.specs.ReadsAs.{IsSoundPool, IsSoundVolume, ReadsAsPool, ReadsAsVolume};
ghost use Rattle.storage_xml.specs.VolumeText.{volume_tree};

use text_laws::read_is_writable;
use text_spec::written_reads_back;

/// The text that is printed of a pool reads as that pool.
pub fn printed_pool_reads_back()
    ensures { (d : ThePool) → IsSoundPool d → ReadsAsPool (written (pool_tree d)) d }
{
    written_reads_back();
}

/// The text that is printed of a volume reads as that volume.
pub fn printed_volume_reads_back()
    ensures { (d : TheVolume) → IsSoundVolume d → ReadsAsVolume (written (volume_tree d)) d }
{
    written_reads_back();
}

/// What a whole text says of a pool is sound.
pub fn read_pool_is_sound()
    ensures { (text : List ℕ) → (d : ThePool) → ReadsAsPool text d → IsSoundPool d }
{
    read_is_writable();
}

/// A sound pool stays sound once it is filled in.
pub fn filled_pool_is_sound()
    ensures { (d f : ThePool) → (words : List ℕ) → IsSoundPool d → IsUuidFilled words d.uuid f.uuid → f ≡ record d { uuid = f.uuid } → IsSoundPool f }
{}

/// What a whole text says of a volume is sound.
pub fn read_volume_is_sound()
    ensures { (text : List ℕ) → (d : TheVolume) → ReadsAsVolume text d → IsSoundVolume d }
{
    read_is_writable();
}
