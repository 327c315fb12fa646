// A whole domain.
ghost use Rattle.std.specs.Prelude.{◌≡◌, ◌++◌, IfOk, map};
ghost use Rattle.xml_print.specs.Absent.{domain_as};
ghost use Rattle.text_spec.specs.DomainPrinted as spec;
ghost use Rattle.text_spec.specs.Tree.{seen};

use crate::absent::Absent;
use crate::attributes::one;
use crate::devices::add_devices;
use crate::elements::holding;
use crate::general::front_trees;
use crate::system::add_middle;
use std::alloc::Global;
use text_spec::{AttributeName, ElementName, Tree};
use virt_types::{DomainDef, NoMemory};
use xml_tables::domain_type_word;

/// The elements in a domain's.
fn domain_children(alloc: Global, def: &DomainDef, absent: Absent) -> Result<Vec<Tree>, NoMemory>
    ensures { IfOk result (λ ts. map seen ts.items
        ≡ spec.domain_children (domain_as absent def.now)) }
{
    let mut children = front_trees(alloc, def, absent)?;
    add_middle(alloc, &mut children, def)?;
    add_devices(alloc, &mut children, def, absent)?;
    Ok(children)
}

/// The tree of a definition: the elements and attributes of its table, in that order, with each
/// value that has a default and nothing for what is absent.
#[tactic(auto, unfolding(text_spec::specs::DomainPrinted::domain_tree))]
pub fn domain_tree(alloc: Global, def: &DomainDef, absent: Absent) -> Result<Tree, NoMemory>
    ensures { IfOk result (λ t. seen t ≡ spec.domain_tree (domain_as absent def.now)) }
{
    let kind = one(alloc, AttributeName::Type, domain_type_word(def.kind))?;
    let children = domain_children(alloc, def, absent)?;
    holding(alloc, ElementName::Domain, kind, children)
}
