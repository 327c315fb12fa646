// Texts of definitions, read and printed.
use markup::{Tree, read_tree};
use std::alloc::Global;
use text_spec::DefFault;
use types_base::{NoMemory, OrNoMemory, Text};

// The text that is printed.
fn whole(text: Result<Text, NoMemory>) -> Result<Text, OrNoMemory<DefFault>> {
    match text {
        Ok(text) => Ok(text),
        Err(NoMemory) => Err(OrNoMemory::NoMemory),
    }
}

fn network(alloc: Global, tree: &Tree) -> Result<Text, OrNoMemory<DefFault>> {
    match network_xml::read(alloc, tree) {
        Ok(def) => whole(network_xml::print(alloc, &def)),
        Err(fault) => Err(fault),
    }
}

fn pool(alloc: Global, tree: &Tree) -> Result<Text, OrNoMemory<DefFault>> {
    match storage_xml::read(alloc, tree) {
        Ok(def) => whole(storage_xml::print(alloc, &def)),
        Err(fault) => Err(fault),
    }
}

fn volume(alloc: Global, tree: &Tree) -> Result<Text, OrNoMemory<DefFault>> {
    match storage_xml::read_volume(alloc, tree) {
        Ok(def) => whole(storage_xml::print_volume(alloc, &def)),
        Err(fault) => Err(fault),
    }
}

/// How the definition that a text says is printed. A text that is none is told of like one for which there is no memory.
pub(crate) fn printed(alloc: Global, kind: &str, text: &str) -> Result<Text, OrNoMemory<DefFault>> {
    let Ok(tree) = read_tree(alloc, text.as_bytes()) else {
        return Err(OrNoMemory::NoMemory);
    };
    match kind {
        "network" => network(alloc, &tree),
        "pool" => pool(alloc, &tree),
        _ => volume(alloc, &tree),
    }
}
