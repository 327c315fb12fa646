// Addresses change nothing of what a text is read as.
ghost use Rattle.std.specs.Prelude.{◌≡◌};
ghost use Rattle.virt_types.specs.declared.domain.Live.{Live as TheLive};
ghost use Rattle.xml_tables.specs.Below.text_laws.ReadsAs.{IsSound, ReadsAsDomain};
ghost use Rattle.text_spec.specs.DomainPrinted.{domain_tree};
ghost use Rattle.text_spec.specs.DomainText.{domain_in};
ghost use Rattle.text_spec.specs.Writable.{IsWritable};
ghost use Rattle.text_spec.specs.Written.{written};
ghost use Rattle.xml_print.specs.LiveText.{live_tree};

use text_spec::written_reads_back;
use xml_tables::printed_domain_is_read;

/// The tree of a running domain is read as that of its definition is.
#[tactic(auto, using(crate::proofs::PassedOver::live_read))]
pub fn addresses_are_passed_over()
    ensures { (l : TheLive) → domain_in (live_tree l) ≡ domain_in (domain_tree l.def) }
{}

/// The text of a running domain, where it is within the limits of a text, is read as its definition.
#[tactic(auto, using(crate::proofs::PassedOver::live_again))]
pub fn live_text_reads_back()
    ensures { (l : TheLive) → IsSound l.def → IsWritable (live_tree l)
        → ReadsAsDomain (written (live_tree l)) l.def }
{
    written_reads_back();
    printed_domain_is_read();
    addresses_are_passed_over();
}
