// Domains.
ghost use Rattle.text_spec.specs.Fill.{IsFilledBy};
ghost use Rattle.types_base.specs.Drawn.{IsMadeOfDrawn};

use crate::identifier::uuid_or_new;
use crate::mac::fill_macs;
use std::alloc::Global;
use std::mem;
use types_base::{DomainDef, ListOf, Random};

/// Gives the definition an identifier and addresses where it has none: an identifier of version 4 of
/// the next two words, then for each interface in order 52:54:00 and the low three bytes of the
/// next word, raised by one modulo 2^24 until no other interface has it. What is there stays. No
/// other words are drawn.
///
/// It takes no memory: the allocator is for a list that stays empty.
pub fn fill_domain<R: Random>(alloc: Global, def: &mut DomainDef, random: &mut R)
    ensures { IsMadeOfDrawn (λ words. IsFilledBy words def.old def.new)
        (R.drawn random.old) (R.drawn random.new) }
{
    def.uuid = uuid_or_new(def.uuid, random);
    let mut interfaces = mem::replace(&mut def.interfaces, ListOf::new(alloc)).into_vec();
    fill_macs(interfaces.as_mut_slice(), random);
    def.interfaces = ListOf::of(interfaces);
}
