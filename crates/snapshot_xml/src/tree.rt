// The trees of snapshots.
ghost use Rattle.std.specs.Prelude.{◌≡◌, ◌++◌, ◌∷◌, [], IfOk, OnOk, Some, map, option_map};
ghost use Rattle.text_spec.specs.Tree.{seen};
ghost use Rattle.snapshot_xml.specs.SnapshotText as spec;

use std::alloc::Global;
use text_spec::{PairList, Tree};
use virt_types::{Name, NoMemory, RunState, Snap, SnapInfo, Text};
use xml_tables::{add, add_worded, spelled, worded};

fn name_text(name: &Option<Name>) -> Option<&str>
    ensures { option_map (λ t. t.now) result ≡ name.now }
{
    match name {
        Some(name) => Some(name.as_str()),
        None => None,
    }
}

fn description_text(description: &Option<Text>) -> Option<&str>
    ensures { option_map (λ t. t.now) result ≡ description.now }
{
    match description {
        Some(description) => Some(description.as_str()),
        None => None,
    }
}

/// What a caller says of a snapshot.
#[tactic(auto, unfolding(crate::specs::SnapshotText::info_tree))]
pub(crate) fn info_tree(alloc: Global, info: &SnapInfo) -> Result<Tree, NoMemory>
    ensures { IfOk result (λ t. seen t ≡ spec.info_tree info.now) }
{
    let mut children = Vec::new(alloc);
    add_worded(alloc, &mut children, "name", name_text(&info.name))?;
    add_worded(
        alloc,
        &mut children,
        "description",
        description_text(&info.description),
    )?;
    spelled(alloc, "domainsnapshot", PairList::new(alloc), "", children)
}

/// What the guest did, in libvirt's words.
fn run_word(run: Option<RunState>) -> &'static str
    ensures { result.now ≡ spec.run_word run }
{
    match run {
        None => "shutoff",
        Some(RunState::Running) => "running",
        Some(RunState::Paused(_)) => "paused",
        Some(RunState::Crashed) => "crashed",
    }
}

/// An empty description says nothing.
fn said(description: &Text) -> Option<&str>
    ensures { option_map (λ t. t.now) result ≡ spec.said description.now }
{
    if description.is_empty() {
        None
    } else {
        Some(description.as_str())
    }
}

fn parent_tree(alloc: Global, name: &Name) -> Result<Tree, NoMemory>
    ensures { IfOk result (λ t. seen t ∷ [] ≡ spec.parent_trees (Some name.now)) }
{
    let mut children = Vec::new(alloc);
    add(&mut children, worded(alloc, "name", name.as_str())?)?;
    spelled(alloc, "parent", PairList::new(alloc), "", children)
}

fn add_parent(alloc: Global, out: &mut Vec<Tree>, parent: &Option<Name>) -> Result<(), NoMemory>
    ensures { OnOk result (map seen out.new.items ≡ map seen out.old.items
        ++ spec.parent_trees parent.now) }
{
    match parent {
        Some(name) => add(out, parent_tree(alloc, name)?),
        None => Ok(()),
    }
}

/// What is told of a snapshot.
#[tactic(auto, unfolding(crate::specs::SnapshotText::kept_tree))]
pub(crate) fn kept_tree(alloc: Global, snap: &Snap) -> Result<Tree, NoMemory>
    ensures { IfOk result (λ t. seen t ≡ spec.kept_tree snap.now) }
{
    let mut children = Vec::new(alloc);
    add(&mut children, worded(alloc, "name", snap.name.as_str())?)?;
    add_worded(alloc, &mut children, "description", said(&snap.description))?;
    add(&mut children, worded(alloc, "state", run_word(snap.run))?)?;
    add_parent(alloc, &mut children, &snap.parent)?;
    spelled(alloc, "domainsnapshot", PairList::new(alloc), "", children)
}
