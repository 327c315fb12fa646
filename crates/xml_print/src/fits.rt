// Whether a definition's text is within the limits of a text.
ghost use Rattle.std.specs.Prelude.{◌≡◌, IfOk};
ghost use Rattle.text_spec.specs.DevicePrinted as spec_device;
ghost use Rattle.text_spec.specs.DomainPrinted as spec_domain;
ghost use Rattle.text_spec.specs.Spelling as spec;
ghost use Rattle.text_spec.specs.Tree.{seen};

use crate::bytes::{CAP, after_tree};
use crate::count::count_elements;
use crate::{Absent, device_tree, domain_tree};
use std::alloc::Global;
use text_spec::{MOST_ELEMENTS, Tree};
use virt_types::{DeviceDef, DomainDef, NoMemory};

/// Whether a tree's text is within the limits of a text: at most 65,536 bytes and 4,096 elements. Its
/// bytes are counted and not written.
#[tactic(auto, unfolding(text_spec::specs::Spelling::fits))]
pub fn tree_fits(tree: &Tree) -> bool
    ensures { result ≡ spec.fits (seen tree.now) }
{
    let left = after_tree(CAP, 0, tree);
    let count = count_elements(tree, MOST_ELEMENTS as u64 + 1);
    left > 0 && count <= MOST_ELEMENTS as u64
}

/// Whether the text of a definition, once it is filled in, is within the limits of a text: at most
/// 65,536 bytes and 4,096 elements.
#[tactic(auto, unfolding(text_spec::specs::DomainPrinted::domain_fits, text_spec::specs::DomainPrinted::stood_in))]
pub fn domain_fits(alloc: Global, def: &DomainDef) -> Result<bool, NoMemory>
    ensures { IfOk result (λ fits. fits ≡ spec_domain.domain_fits def.now) }
{
    let tree = domain_tree(alloc, def, Absent::StoodIn)?;
    Ok(tree_fits(&tree))
}

/// Whether the text of a device, once it is filled in, is within the limits of a text.
#[tactic(auto, unfolding(text_spec::specs::DevicePrinted::device_fits))]
pub fn device_fits(alloc: Global, device: &DeviceDef) -> Result<bool, NoMemory>
    ensures { IfOk result (λ fits. fits ≡ spec_device.device_fits device.now) }
{
    let tree = device_tree(alloc, device, Absent::StoodIn)?;
    Ok(tree_fits(&tree))
}
