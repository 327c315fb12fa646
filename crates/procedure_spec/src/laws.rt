// What the tables of procedures and the bounds have to be. A law has nothing to run.
ghost use Rattle.std.specs.Prelude.{◌≡◌, ◌+◌};
ghost use Rattle.procedure_spec.specs.Calls.{IsFound};
ghost use Rattle.procedure_spec.specs.Lines.{AreLines};
ghost use Rattle.procedure_spec.specs.declared.procedure.Procedure.{Procedure};
ghost use Rattle.procedure_spec.specs.declared.table.TheConstants.{OWN, PROCEDURES, REMOTE};
ghost use Rattle.procedure_spec.specs.declared.words.TheConstants.{PACKET_BOUND};
ghost use Rattle.wire_spec.specs.declared.message.TheConstants.{HEADER_LENGTH, MOST_BYTES};

/// The tables have, for each procedure, the line that its document gives it, and no other.
pub fn procedures_have_their_lines()
    ensures remote { REMOTE ≡ 0x20008086 }
    ensures own { OWN ≡ 0x20008f01 }
    ensures lines { AreLines PROCEDURES }
    ensures found { (p : Procedure) → IsFound p }
{}

/// The longest payload fills the longest packet.
pub fn payload_fits_packet()
    ensures { HEADER_LENGTH + PACKET_BOUND ≡ MOST_BYTES }
{}
