// What the files of definitions hold, one by one.
ghost use Rattle.std.specs.Prelude.{◌≡◌, ◌++◌, IfOk, OnOk, Some, option_map, true};
ghost use Rattle.store_spec.specs.declared.change.Change.TheVariants as change;
ghost use Rattle.def_map.specs.Map.{found};
ghost use Rattle.domain_texts.specs.Kept.{stored};
ghost use Rattle.domain_texts.specs.Title.{title_of};
ghost use Rattle.found_domains.specs.Files.{given, if_old, of_domain, of_other};
ghost use Rattle.found_domains.specs.Taking.{Takes};

use crate::found::FoundDomain;
use def_keeper::FoundDefinition;
use def_map::DefMap;
use domain_texts::{read_stored, title_of};
use std::alloc::Global;
use store_spec::{BookKind, Change, Entry, Version};
use types_base::{DomainDef, ListOf, MOST_TEXT_BYTES, NoMemory, Text, TryCopy, both};

// The same entry with this title.
fn titled(alloc: Global, entry: &Entry, title: &str) -> Result<Entry, NoMemory>
    ensures { IfOk result (λ e. e ≡ record entry.now { title = title.now }) }
{
    let title = Text::copy_of(alloc, title);
    let (name, (title, text)) = both(entry.name.copy(), both(title, entry.text.copy()))?;
    Ok(Entry {
        name,
        autostart: entry.autostart,
        title,
        text,
    })
}

// Keeps the change that puts a file again with this title, where the file is of version 1.
fn push_again(
    alloc: Global,
    again: &mut ListOf<Change>,
    row: FoundDefinition,
    entry: &Entry,
    title: &str,
) -> Result<(), NoMemory>
    ensures { OnOk result (again.new ≡ again.old ++ if_old row.version (change.Put row.kind row.uuid (record entry.now { title = title.now }))) }
{
    match row.version {
        Version::One => {
            let entry = titled(alloc, entry, title)?;
            again.push(Change::Put {
                kind: row.kind,
                uuid: row.uuid,
                entry,
            })
        }
        Version::Two => Ok(()),
    }
}

// The same with the title of this definition.
fn push_titled(
    alloc: Global,
    again: &mut ListOf<Change>,
    row: FoundDefinition,
    entry: &Entry,
    definition: &DomainDef,
) -> Result<(), NoMemory>
    ensures { OnOk result (again.new ≡ again.old ++ if_old row.version (change.Put row.kind row.uuid (record entry.now { title = title_of definition.now }))) }
{
    push_again(alloc, again, row, entry, title_of(definition))
}

// Keeps a domain of this definition, and the change that puts its file again.
fn keep_domain(
    alloc: Global,
    domains: &mut ListOf<FoundDomain>,
    again: &mut ListOf<Change>,
    row: FoundDefinition,
    entry: &Entry,
    definition: DomainDef,
) -> Result<(), NoMemory>
    ensures { OnOk result (Takes (Some (of_domain row entry.now definition)) domains.old domains.new again.old again.new true) }
{
    let FoundDefinition { uuid, .. } = row;
    let autostart = entry.autostart;
    match push_titled(alloc, again, row, entry, &definition) {
        Ok(()) => domains.push(FoundDomain {
            uuid,
            definition,
            autostart,
        }),
        Err(NoMemory) => {
            drop(definition);
            Err(NoMemory)
        }
    }
}

// The file of a domain; whether it is good.
fn take_domain(
    alloc: Global,
    domains: &mut ListOf<FoundDomain>,
    again: &mut ListOf<Change>,
    row: FoundDefinition,
    entry: &Entry,
) -> Result<bool, NoMemory>
    ensures { IfOk result (Takes (option_map (of_domain row entry.now) (stored row.version row.uuid entry.now)) domains.old domains.new again.old again.new) }
{
    match read_stored(alloc, row.version, row.uuid, entry) {
        Ok(Some(definition)) => {
            match keep_domain(alloc, domains, again, row, entry, definition) {
                Ok(()) => Ok(true),
                Err(NoMemory) => Err(NoMemory),
            }
        }
        Ok(None) => Ok(false),
        Err(NoMemory) => Err(NoMemory),
    }
}

// The file of a network or a pool, whose text is not read here; whether it is good.
fn take_other(
    alloc: Global,
    domains: &mut ListOf<FoundDomain>,
    again: &mut ListOf<Change>,
    row: FoundDefinition,
    entry: &Entry,
) -> Result<bool, NoMemory>
    ensures { IfOk result (Takes (of_other row entry.now) domains.old domains.new again.old again.new) }
{
    let _domains = domains;
    if entry.text.len() > MOST_TEXT_BYTES {
        return Ok(false);
    }
    match push_again(alloc, again, row, entry, "") {
        Ok(()) => Ok(true),
        Err(NoMemory) => Err(NoMemory),
    }
}

/// Takes in the next file that was found; whether it is good.
#[tactic(auto, unfolding(crate::specs::Files::given))]
pub(crate) fn take(
    alloc: Global,
    map: &DefMap,
    domains: &mut ListOf<FoundDomain>,
    again: &mut ListOf<Change>,
    row: FoundDefinition,
) -> Result<bool, NoMemory>
    ensures { IfOk result (Takes (given (found map.now) row) domains.old domains.new again.old again.new) }
{
    match map.get(row.kind, row.uuid) {
        Some(entry) => match row.kind {
            BookKind::Domain => take_domain(alloc, domains, again, row, entry),
            BookKind::Network | BookKind::Pool => take_other(alloc, domains, again, row, entry),
        },
        None => Ok(false),
    }
}
