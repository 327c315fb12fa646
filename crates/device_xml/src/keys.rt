// The keys of devices that were met: each of them once.
ghost use Rattle.std.specs.Prelude.{◌≡◌, ℕ, List, map, not, ◌||◌, IfOk, OnOk, option_map};
ghost use Rattle.std.specs.BTreeSet.{contains_text};
ghost use Rattle.std.specs.Char.{to_ascii_lowercase};
ghost use Rattle.std.specs.Str.{bytes_eq};
ghost use Rattle.std.specs.String.{string_bytes};
ghost use Rattle.text_spec.specs.DeviceList.{key_in as spec_key_in};
ghost use Rattle.text_spec.specs.Tree.{seen};

use crate::disk::target_dev;
use crate::interface::mac_address;
use std::alloc::Global;
use std::collections::BTreeSet;
use text_spec::{DeviceKind, Tree};
use types_base::{NoMemory, Text};

/// Adds a key, and says whether it is new.
pub(crate) fn add_key(keys: &mut BTreeSet<String>, key: String) -> Result<bool, NoMemory>
    ensures fresh { IfOk result (λ fresh. fresh
        ≡ not (contains_text keys.old (string_bytes key))) }
    ensures added { OnOk result ((other : List ℕ) → contains_text keys.new other
        ≡ (bytes_eq (string_bytes key) other || contains_text keys.old other)) }
{
    Ok(keys.insert(key)?)
}

fn small_letters(alloc: Global, text: &Text) -> Result<String, NoMemory>
    ensures { IfOk result (λ s. string_bytes s ≡ map to_ascii_lowercase text.now) }
{
    let mut key = String::from_str(alloc, text.as_str())?;
    key.make_ascii_lowercase();
    Ok(key)
}

/// The key of a device.
#[tactic(auto, unfolding(text_spec::specs::DeviceList::key_in))]
pub(crate) fn key_in(
    alloc: Global,
    kind: DeviceKind,
    tree: &Tree,
) -> Result<Option<String>, NoMemory>
    ensures { IfOk result (λ key. option_map string_bytes key
        ≡ spec_key_in kind (seen tree.now)) }
{
    match kind {
        DeviceKind::Disk => match target_dev(tree) {
            Some(dev) => Ok(Some(String::from_str(alloc, dev.as_str())?)),
            None => Ok(None),
        },
        DeviceKind::Interface => match mac_address(tree) {
            Some(address) => Ok(Some(small_letters(alloc, address)?)),
            None => Ok(None),
        },
    }
}
