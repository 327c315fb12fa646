// What is known of every domain: its names, its description, its script.
ghost use Rattle.std.specs.Prelude.{◌≡◌, ◌++◌, [], IfOk, OnOk, map};
ghost use Rattle.xml_print.specs.Absent.{domain_as};
ghost use Rattle.text_spec.specs.DomainPrinted as spec;
ghost use Rattle.text_spec.specs.Spelling.{present, worded as worded_tree};
ghost use Rattle.text_spec.specs.Tree.{seen};

use crate::absent::Absent;
use crate::elements::{add, holding, worded};
use std::alloc::Global;
use text_spec::{ElementName, PairList, Tree};
use virt_types::{DomainDef, NoMemory, Script, Text, Uuid};

fn uuid_tree(alloc: Global, uuid: Uuid) -> Result<Tree, NoMemory>
    ensures { IfOk result (λ t. seen t ≡ spec.uuid_tree uuid) }
{
    let mut buffer = Uuid::encode_buffer();
    let text = uuid.hyphenated().encode_lower(&mut buffer);
    worded(alloc, ElementName::Uuid, PairList::new(alloc), text)
}

fn add_uuid(alloc: Global, out: &mut Vec<Tree>, uuid: Option<Uuid>) -> Result<(), NoMemory>
    ensures { OnOk result (map seen out.new.items ≡ map seen out.old.items
        ++ present spec.uuid_tree uuid) }
{
    match uuid {
        Some(uuid) => add(out, uuid_tree(alloc, uuid)?),
        None => Ok(()),
    }
}

/// Adds an element with a text alone, where there is one.
pub(crate) fn add_text(
    alloc: Global,
    out: &mut Vec<Tree>,
    name: ElementName,
    text: &Option<Text>,
) -> Result<(), NoMemory>
    ensures { OnOk result (map seen out.new.items ≡ map seen out.old.items
        ++ present (worded_tree name []) text.now) }
{
    match text {
        Some(text) => add(
            out,
            worded(alloc, name, PairList::new(alloc), text.as_str())?,
        ),
        None => Ok(()),
    }
}

fn script_tree(alloc: Global, text: &str) -> Result<Tree, NoMemory>
    ensures { IfOk result (λ t. seen t ≡ spec.script_tree text.now) }
{
    let mut inner = Vec::new(alloc);
    let guest = worded(alloc, ElementName::Guest, PairList::new(alloc), text)?;
    add(&mut inner, guest)?;
    holding(alloc, ElementName::Metadata, PairList::new(alloc), inner)
}

fn add_script(alloc: Global, out: &mut Vec<Tree>, script: &Script) -> Result<(), NoMemory>
    ensures { OnOk result (map seen out.new.items ≡ map seen out.old.items
        ++ spec.script_trees script.now) }
{
    if script.text.is_empty() {
        Ok(())
    } else {
        add(out, script_tree(alloc, script.text.as_str())?)
    }
}

/// The elements before memory.
#[tactic(auto, unfolding(text_spec::specs::DomainPrinted::front_trees))]
pub(crate) fn front_trees(
    alloc: Global,
    def: &DomainDef,
    absent: Absent,
) -> Result<Vec<Tree>, NoMemory>
    ensures { IfOk result (λ ts. map seen ts.items
        ≡ spec.front_trees (domain_as absent def.now)) }
{
    let mut out = Vec::new(alloc);
    let name = worded(
        alloc,
        ElementName::Name,
        PairList::new(alloc),
        def.name.as_str(),
    )?;
    add(&mut out, name)?;
    add_uuid(alloc, &mut out, absent.uuid(def.uuid))?;
    add_text(alloc, &mut out, ElementName::Title, &def.title)?;
    add_text(alloc, &mut out, ElementName::Description, &def.description)?;
    add_script(alloc, &mut out, &def.guest)?;
    Ok(out)
}
