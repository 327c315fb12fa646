// What is printed of networks reads back, and what is read is sound.
ghost use Rattle.std.specs.Prelude.{◌≡◌, ℕ, List};
ghost use Rattle.types_base.specs.declared.network_def.NetDef.{NetDef as TheNetwork};
ghost use Rattle.text_spec.specs.Fill.{IsUuidFilled};
ghost use Rattle.text_spec.specs.Written.{written};
ghost use Rattle.network_xml.specs.NetworkPrinted.{network_tree};
ghost use Rattle.network_xml.specs.ReadsAs.{IsSoundNetwork, ReadsAsNetwork};

use text_laws::read_is_writable;
use text_spec::written_reads_back;

/// The text that is printed of a network reads as that network.
pub fn printed_network_reads_back()
    ensures { (d : TheNetwork) → IsSoundNetwork d → ReadsAsNetwork (written (network_tree d)) d }
{
    written_reads_back();
}

/// What a whole text says of a network is sound.
pub fn read_network_is_sound()
    ensures { (text : List ℕ) → (d : TheNetwork) → ReadsAsNetwork text d → IsSoundNetwork d }
{
    read_is_writable();
}

/// A sound network stays sound once it is filled in.
pub fn filled_network_is_sound()
    ensures { (d f : TheNetwork) → (words : List ℕ) → IsSoundNetwork d → IsUuidFilled words d.uuid f.uuid → f ≡ record d { uuid = f.uuid } → IsSoundNetwork f }
{}
