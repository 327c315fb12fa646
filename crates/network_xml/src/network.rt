// Networks, read and printed.
ghost use Rattle.std.specs.Prelude.{◌≡◌, IfOk, codes, option_map};
ghost use Rattle.text_spec.specs.Fill.{IsUuidFilled};
ghost use Rattle.text_spec.specs.Tree.{seen};
ghost use Rattle.text_spec.specs.Written.{written};
ghost use Rattle.types_base.specs.Drawn.{IsMadeOfDrawn};
ghost use Rattle.types_base.specs.Memory.{UnlessNoMemory};
ghost use Rattle.xml_tables.specs.Rows.{optional};
ghost use Rattle.network_xml.specs.NetworkPrinted.{network_tree as the_tree};
ghost use Rattle.network_xml.specs.NetworkText as spec;
ghost use Rattle.network_xml.specs.ReadsAs.{IsSoundNetwork, ReadsAsNetwork};

use crate::ip::optional_ip;
use crate::laws::printed_network_reads_back;
use crate::network_tree::{network_fits, network_tree};
use markup::write_tree;
use std::alloc::Global;
use text_spec::{DefFault, DefKind, Tree};
use types_base::{ForwardMode, NetDef, NoMemory, OrNoMemory, Random, Text, TryCopy};
use xml_fill::uuid_or_new;
use xml_tables::{
    fault_at_path, fault_of_root, first_called, is_called, needed_name, optional_uuid, text_called,
    value_called,
};

#[tactic(auto, unfolding(crate::specs::NetworkText::mode_in))]
fn mode_in(tree: &Tree) -> Option<&Text>
    ensures { option_map (λ t. t.now) result ≡ spec.mode_in (seen tree.now) }
{
    match first_called("forward", tree) {
        Some(forward) => value_called("mode", forward),
        None => None,
    }
}

#[tactic(auto, unfolding(crate::specs::NetworkText::bridge_in))]
fn bridge_name(tree: &Tree) -> Option<&Text>
    ensures { option_map (λ t. t.now) result ≡ spec.bridge_in (seen tree.now) }
{
    match first_called("bridge", tree) {
        Some(bridge) => value_called("name", bridge),
        None => None,
    }
}

fn bridge_in(tree: &Tree) -> Result<Option<Text>, NoMemory>
    ensures { IfOk result (λ name. name ≡ spec.bridge_in (seen tree.now)) }
{
    match bridge_name(tree) {
        Some(name) => Ok(Some(name.copy()?)),
        None => Ok(None),
    }
}

fn optional_mode(
    alloc: Global,
    text: Option<&Text>,
) -> Result<Option<ForwardMode>, OrNoMemory<DefFault>>
    ensures { UnlessNoMemory result (optional (codes "/network/forward") spec.mode_value (option_map (λ t. t.now) text.entry)) }
{
    match text {
        None => Ok(None),
        Some(text) => match text.as_str() {
            "nat" => Ok(Some(ForwardMode::Nat)),
            "route" => Ok(Some(ForwardMode::Route)),
            _ => Err(fault_at_path(alloc, "/network/forward", DefKind::BadValue)),
        },
    }
}

/// What the element of a network says.
#[tactic(auto, unfolding(crate::specs::NetworkText::network_of))]
fn network_of(alloc: Global, tree: &Tree) -> Result<NetDef, OrNoMemory<DefFault>>
    ensures { UnlessNoMemory result (spec.network_of (seen tree.now)) }
{
    let name = match needed_name(alloc, "/network/name", text_called("name", tree)) {
        Ok(name) => name,
        Err(fault) => return Err(fault),
    };
    let uuid = match optional_uuid(alloc, "/network/uuid", text_called("uuid", tree)) {
        Ok(uuid) => uuid,
        Err(fault) => return Err(fault),
    };
    let forward = match optional_mode(alloc, mode_in(tree)) {
        Ok(forward) => forward,
        Err(fault) => return Err(fault),
    };
    let ip = match optional_ip(alloc, first_called("ip", tree)) {
        Ok(ip) => ip,
        Err(fault) => return Err(fault),
    };
    match bridge_in(tree) {
        Ok(bridge) => Ok(NetDef {
            name,
            uuid,
            forward,
            bridge,
            ip,
        }),
        Err(NoMemory) => Err(OrNoMemory::NoMemory),
    }
}

/// What a tree says of a network, whatever the length of its own text.
#[tactic(auto, unfolding(crate::specs::NetworkText::network_in))]
fn network_in(alloc: Global, tree: &Tree) -> Result<NetDef, OrNoMemory<DefFault>>
    ensures { UnlessNoMemory result (spec.network_in (seen tree.now)) }
{
    if is_called("network", tree) {
        network_of(alloc, tree)
    } else {
        let fault = fault_of_root(alloc, DefKind::Root, tree)?;
        Err(OrNoMemory::Fault(fault))
    }
}

/// What a tree says of a network: its `name`, `uuid`, the `mode` of `forward`, the `name` of `bridge`,
/// and of `ip` the `address`, the `netmask` or `prefix`, and the `range` and each `host` in `dhcp`. All
/// else is passed over.
///
/// The fault is the first in that order: another root element, a value that is missing or none, a
/// prefix that is none of 1 to 30, an address of `dhcp` that is not the network's, a range that ends
/// before it starts. It is `TooLong`, with the root's path, where the network's own text would pass
/// the limits of a text.
///
/// What is read of the tree of a whole text is sound (`read_network_is_sound`), so that it reads back
/// from the text that is printed of it.
#[tactic(auto, unfolding(crate::specs::NetworkText::network_read))]
pub fn read(alloc: Global, tree: &Tree) -> Result<NetDef, OrNoMemory<DefFault>>
    ensures { UnlessNoMemory result (spec.network_read (seen tree.now)) }
{
    let def = match network_in(alloc, tree) {
        Ok(def) => def,
        Err(fault) => return Err(fault),
    };
    if network_fits(alloc, &def)? {
        return Ok(def);
    }
    let fault = fault_of_root(alloc, DefKind::TooLong, tree)?;
    Err(OrNoMemory::Fault(fault))
}

/// The network with an identifier where it had none: one of version 4 of the next two words. What is
/// there stays.
pub fn fill<R: Random>(mut def: NetDef, random: &mut R) -> NetDef
    ensures uuid { IsMadeOfDrawn (λ words. IsUuidFilled words def.uuid result.uuid) (R.drawn random.old) (R.drawn random.new) }
    ensures others { result ≡ record def { uuid = result.uuid } }
{
    def.uuid = uuid_or_new(def.uuid, random);
    def
}

/// The text of a network: one element a line, two blanks a level, the prefix as a netmask, and nothing
/// for what is absent. What is sound, as all that is read, is what its text reads as.
pub fn print(alloc: Global, def: &NetDef) -> Result<Text, NoMemory>
    ensures spelling { IfOk result (λ text. text ≡ written (the_tree def.now)) }
    ensures reads_back { IfOk result (λ text. IsSoundNetwork def.now → ReadsAsNetwork text def.now) }
{
    printed_network_reads_back();
    let tree = network_tree(alloc, def, def.uuid)?;
    write_tree(alloc, &tree)
}
