// Pools, read and printed.
ghost use Rattle.std.specs.Prelude.{◌≡◌, IfOk, option_map};
ghost use Rattle.text_spec.specs.Fill.{IsUuidFilled};
ghost use Rattle.text_spec.specs.Tree.{seen};
ghost use Rattle.text_spec.specs.Written.{written};
ghost use Rattle.types_base.specs.Drawn.{IsMadeOfDrawn};
ghost use Rattle.types_base.specs.Memory.{UnlessNoMemory};
ghost use Rattle.xml_tables.specs.Rows.{needed};
ghost use Rattle.std.specs.Prelude.{codes};
ghost use Rattle.xml_tables.specs.Called.{value_called as value_in};
ghost use Rattle.storage_xml.specs.PoolText as spec;
ghost use Rattle.storage_xml.specs.ReadsAs.{IsSoundPool, ReadsAsPool};

use crate::laws::printed_pool_reads_back;
use crate::pool_tree::{pool_fits, pool_tree};
use markup::write_tree;
use std::alloc::Global;
use text_spec::{DefFault, DefKind, Tree};
use types_base::{NoMemory, OrNoMemory, PoolDef, PoolType, Random, Text};
use xml_fill::uuid_or_new;
use xml_tables::{
    fault_at_path, fault_of_root, first_called, is_called, needed_name, needed_text, optional_size,
    optional_uuid, text_called, value_called,
};

/// The most that a pool's volumes may take together, in bytes.
const MOST_CAPACITY: u64 = 1 << 60;

fn type_in(alloc: Global, tree: &Tree) -> Result<PoolType, OrNoMemory<DefFault>>
    ensures { UnlessNoMemory result (needed (codes "/pool") spec.pool_type_value (value_in (codes "type") (seen tree.now))) }
{
    match value_called("type", tree) {
        None => Err(fault_at_path(alloc, "/pool", DefKind::Missing)),
        Some(word) => {
            if word.as_str() == "dir" {
                Ok(PoolType::Dir)
            } else {
                Err(fault_at_path(alloc, "/pool", DefKind::BadValue))
            }
        }
    }
}

fn capacity_or_most(capacity: Option<u64>) -> u64
    ensures { result ≡ spec.capacity_or_most capacity }
{
    match capacity {
        None | Some(0) => MOST_CAPACITY,
        Some(capacity) => capacity,
    }
}

#[tactic(auto, unfolding(crate::specs::PoolText::path_in))]
fn path_in(tree: &Tree) -> Option<&Text>
    ensures { option_map (λ t. t.now) result ≡ spec.path_in (seen tree.now) }
{
    match first_called("target", tree) {
        Some(target) => text_called("path", target),
        None => None,
    }
}

/// What the element of a pool says.
#[tactic(auto, unfolding(crate::specs::PoolText::pool_of))]
fn pool_of(alloc: Global, tree: &Tree) -> Result<PoolDef, OrNoMemory<DefFault>>
    ensures { UnlessNoMemory result (spec.pool_of (seen tree.now)) }
{
    let kind = match type_in(alloc, tree) {
        Ok(kind) => kind,
        Err(fault) => return Err(fault),
    };
    let name = match needed_name(alloc, "/pool/name", text_called("name", tree)) {
        Ok(name) => name,
        Err(fault) => return Err(fault),
    };
    let uuid = match optional_uuid(alloc, "/pool/uuid", text_called("uuid", tree)) {
        Ok(uuid) => uuid,
        Err(fault) => return Err(fault),
    };
    let capacity = match optional_size(alloc, "/pool/capacity", first_called("capacity", tree)) {
        Ok(capacity) => capacity_or_most(capacity),
        Err(fault) => return Err(fault),
    };
    let path = match needed_text(alloc, "/pool/target/path", path_in(tree)) {
        Ok(path) => path,
        Err(fault) => return Err(fault),
    };
    Ok(PoolDef {
        kind,
        name,
        uuid,
        capacity,
        path,
    })
}

/// What a tree says of a pool, whatever the length of its own text.
#[tactic(auto, unfolding(crate::specs::PoolText::pool_in))]
fn pool_in(alloc: Global, tree: &Tree) -> Result<PoolDef, OrNoMemory<DefFault>>
    ensures { UnlessNoMemory result (spec.pool_in (seen tree.now)) }
{
    if is_called("pool", tree) {
        pool_of(alloc, tree)
    } else {
        let fault = fault_of_root(alloc, DefKind::Root, tree)?;
        Err(OrNoMemory::Fault(fault))
    }
}

/// What a tree says of a pool: its `type`, `name`, `uuid`, `capacity` in bytes and `target/path`. All
/// else is passed over. A capacity that is absent or 0 is 2^60.
///
/// The fault is the first in that order: another root element, a value that is missing or none, a
/// capacity above 2^60. It is `TooLong`, with the root's path, where the pool's own text would pass
/// the limits of a text.
///
/// What is read of the tree of a whole text is sound (`read_pool_is_sound`), so that it reads back from
/// the text that is printed of it.
#[tactic(auto, unfolding(crate::specs::PoolText::pool_read))]
pub fn read(alloc: Global, tree: &Tree) -> Result<PoolDef, OrNoMemory<DefFault>>
    ensures { UnlessNoMemory result (spec.pool_read (seen tree.now)) }
{
    let def = match pool_in(alloc, tree) {
        Ok(def) => def,
        Err(fault) => return Err(fault),
    };
    if pool_fits(alloc, &def)? {
        return Ok(def);
    }
    let fault = fault_of_root(alloc, DefKind::TooLong, tree)?;
    Err(OrNoMemory::Fault(fault))
}

/// The pool with an identifier where it had none: one of version 4 of the next two words. What is
/// there stays.
pub fn fill<R: Random>(mut def: PoolDef, random: &mut R) -> PoolDef
    ensures uuid { IsMadeOfDrawn (λ words. IsUuidFilled words def.uuid result.uuid) (R.drawn random.old) (R.drawn random.new) }
    ensures others { result ≡ record def { uuid = result.uuid } }
{
    def.uuid = uuid_or_new(def.uuid, random);
    def
}

/// The text of a pool: one element a line, two blanks a level, and no identifier where there is none.
/// What is sound, as all that is read, is what its text reads as.
pub fn print(alloc: Global, def: &PoolDef) -> Result<Text, NoMemory>
    ensures spelling { IfOk result (λ text. text ≡ written (spec.pool_tree def.now)) }
    ensures reads_back { IfOk result (λ text. IsSoundPool def.now → ReadsAsPool text def.now) }
{
    printed_pool_reads_back();
    let tree = pool_tree(alloc, def, def.uuid)?;
    write_tree(alloc, &tree)
}
