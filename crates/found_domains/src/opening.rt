// What is found when a store is opened.
ghost use Rattle.std.specs.Prelude.{◌≡◌, ◌≤◌, [], All, IfErr, IfOk, OnOk, None, Ok, Some, length};
ghost use Rattle.types_base.specs.Limits.{most_domains};
ghost use Rattle.store_spec.specs.FileNames as name;
ghost use Rattle.def_keeper.specs.Calls.{CanBeMade};
ghost use Rattle.def_map.specs.Map.{found};
ghost use Rattle.found_domains.specs.declared.found.FoundFault.TheVariants as fault;
ghost use Rattle.found_domains.specs.Found.{AreDistinct, IsByName, IsFault, IsKeptOf, again_in, domains_in, fault_in, file_of, first_bad, name_of};

use crate::files::take;
use crate::found::{FoundDomain, FoundDomains, FoundFault};
use crate::order::by_name;
use crate::past::first_past;
use def_keeper::FoundDefinition;
use def_map::DefMap;
use std::alloc::Global;
use store_spec::Change;
use types_base::{ListOf, NoMemory, OrNoMemory, Text, Uuid};

// The name of a definition's file.
#[tactic(auto, unfolding(store_spec::specs::FileNames::file_name))]
fn file_of(alloc: Global, row: FoundDefinition) -> Result<Text, NoMemory>
    ensures { IfOk result (λ file. file ≡ file_of row) }
{
    let mut buffer = Uuid::encode_buffer();
    let mut text = String::from_str(alloc, row.kind.word())?;
    text.push_str("-")?;
    text.push_str(row.uuid.hyphenated().encode_lower(&mut buffer))?;
    text.push_str(".def")?;
    Ok(Text::of(text))
}

// Takes in all files, up to the first that is not good.
fn take_all(
    alloc: Global,
    map: &DefMap,
    domains: &mut ListOf<FoundDomain>,
    again: &mut ListOf<Change>,
    rows: &[FoundDefinition],
) -> Result<Option<FoundDefinition>, NoMemory>
    requires domains { domains.old ≡ [] }
    requires again { again.old ≡ [] }
    ensures bad { IfOk result (λ bad. bad ≡ first_bad (found map.now) rows.now) }
    ensures domains { result ≡ Ok None → domains.new ≡ domains_in (found map.now) rows.now }
    ensures again { result ≡ Ok None → again.new ≡ again_in (found map.now) rows.now }
{
    for row in rows {
        match take(alloc, map, domains, again, *row) {
            Ok(true) => {}
            Ok(false) => return Ok(Some(*row)),
            Err(NoMemory) => return Err(NoMemory),
        }
    }
    Ok(None)
}

// The fault of a file whose text is bad.
fn bad_text(alloc: Global, row: FoundDefinition) -> OrNoMemory<FoundFault>
    ensures { IsFault (Some (fault.BadText (file_of row))) result }
{
    match file_of(alloc, row) {
        Ok(file) => OrNoMemory::Fault(FoundFault::BadText { file }),
        Err(NoMemory) => OrNoMemory::NoMemory,
    }
}

// The fault of a file that is one too many.
fn too_many(alloc: Global, row: FoundDefinition) -> OrNoMemory<FoundFault>
    ensures { IsFault (Some (fault.TooMany (file_of row))) result }
{
    match file_of(alloc, row) {
        Ok(file) => OrNoMemory::Fault(FoundFault::TooMany { file }),
        Err(NoMemory) => OrNoMemory::NoMemory,
    }
}

/// What is found when a store is opened, by its map and the files of its definitions in the order of their names.
/// `BadText` where the text of a domain has no reading, or is not that domain's; texts of networks and pools are
/// taken for good. `TooMany` where there are more than 256 domains, 64 networks or 64 pools.
#[tactic(auto, unfolding(crate::specs::Found::fault_in))]
pub fn read_found(
    alloc: Global,
    map: &DefMap,
    rows: &[FoundDefinition],
) -> Result<FoundDomains, OrNoMemory<FoundFault>>
    ensures good { OnOk result (fault_in (found map.now) rows.now ≡ None) }
    ensures bad { IfErr result (IsFault (fault_in (found map.now) rows.now)) }
    ensures domains { IfOk result (λ opened. IsByName (domains_in (found map.now) rows.now) opened.domains) }
    ensures again { IfOk result (λ opened. opened.again ≡ again_in (found map.now) rows.now) }
    ensures kept { IfOk result (λ opened. All (IsKeptOf (found map.now)) opened.domains) }
    ensures few { IfOk result (λ opened. length opened.domains ≤ most_domains) }
    ensures names { IfOk result (λ opened. AreDistinct name_of opened.domains) }
    ensures uuids { IfOk result (λ opened. AreDistinct (λ d. d.uuid) opened.domains) }
    ensures made { IfOk result (λ opened. All CanBeMade opened.again) }
{
    let mut domains = ListOf::new(alloc);
    let mut again = ListOf::new(alloc);
    match take_all(alloc, map, &mut domains, &mut again, rows) {
        Ok(None) => {}
        Ok(Some(row)) => return Err(bad_text(alloc, row)),
        Err(NoMemory) => return Err(OrNoMemory::NoMemory),
    }
    match first_past(rows) {
        None => {}
        Some(row) => return Err(too_many(alloc, row)),
    }
    match by_name(domains) {
        Ok(domains) => Ok(FoundDomains { domains, again }),
        Err(NoMemory) => {
            drop(again);
            Err(OrNoMemory::NoMemory)
        }
    }
}
