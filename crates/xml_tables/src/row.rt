// The walk over the rows of an element table.
ghost use Rattle.std.specs.Prelude.{◌≡◌, ◌++◌, IfOk, OnOk, filter, map, option_map};
ghost use Rattle.std.specs.String.{string_bytes};
ghost use Rattle.text_spec.specs.Look.{all_of, elements_at, is_element as is_named};
ghost use Rattle.text_spec.specs.Table as spec;
ghost use Rattle.text_spec.specs.Tree.{seen};
ghost use Rattle.text_spec.specs.Tests.{Tests};

use crate::content::content_fault;
use crate::look::{element_at, first_of, is_element, value_in};
use std::alloc::Global;
use text_spec::{DefFault, DefKind, ElementName, Need, Place, Row, Tree};
use types_base::{NoMemory, OrNoMemory, Text};
use xml_words::element_word;

/// Adds the names of elements, each after a slash.
fn add_names(path: &mut String, names: &[ElementName]) -> Result<(), NoMemory>
    ensures { OnOk result (string_bytes path.new
        ≡ string_bytes path.old ++ spec.path_of names.now) }
{
    let mut rest = names;
    while let Some((name, after)) = rest.split_first() {
        path.push_str("/")?;
        path.push_str(element_word(*name))?;
        rest = after;
    }
    Ok(())
}

/// Adds the names that lead to a place.
fn add_place(path: &mut String, place: Place) -> Result<(), NoMemory>
    ensures { OnOk result (string_bytes path.new
        ≡ string_bytes path.old ++ spec.path_of (spec.names_of place)) }
{
    match place {
        Place::Here => Ok(()),
        Place::Child(name) => add_names(path, &[name]),
        Place::Inside(outer, name) => add_names(path, &[outer, name]),
    }
}

/// A fault at a place in the element that these names lead to.
pub fn fault_at(
    alloc: Global,
    names: &[ElementName],
    place: Place,
    kind: DefKind,
) -> Result<DefFault, NoMemory>
    ensures { IfOk result (λ f. f ≡ spec.fault_at (names.now ++ spec.names_of place) kind) }
{
    let mut path = String::new(alloc);
    add_names(&mut path, names)?;
    add_place(&mut path, place)?;
    Ok(DefFault {
        path: Text::of(path),
        kind,
    })
}

fn absent_in(need: Need) -> Option<DefKind>
    ensures { result ≡ spec.absent_in need }
{
    match need {
        Need::Needed | Need::Each => Some(DefKind::Missing),
        Need::Optional => None,
    }
}

fn absent_at(need: Need) -> Option<DefKind>
    ensures { result ≡ spec.absent_at need }
{
    match need {
        Need::Needed => Some(DefKind::Missing),
        Need::Optional | Need::Each => None,
    }
}

/// What is wrong with an element of a row.
fn wrong_in(alloc: Global, row: &Row, element: &Tree) -> Result<Option<DefKind>, NoMemory>
    ensures { IfOk result (λ found. found ≡ spec.wrong_in row.now (seen element.now)) }
{
    match value_in(row.source, element) {
        Some(value) => content_fault(alloc, row.content, element, value),
        None => Ok(absent_in(row.need)),
    }
}

fn wrong_in_first(
    alloc: Global,
    row: &Row,
    element: Option<&Tree>,
) -> Result<Option<DefKind>, NoMemory>
    ensures { IfOk result (λ found. found
        ≡ spec.wrong_in_first row.now (option_map (λ t. seen t.now) element.entry)) }
{
    match element {
        Some(element) => wrong_in(alloc, row, element),
        None => Ok(absent_at(row.need)),
    }
}

fn wrong_among(
    alloc: Global,
    row: &Row,
    name: ElementName,
    trees: &[Tree],
) -> Result<Option<DefKind>, NoMemory>
    ensures { IfOk result (λ found. found
        ≡ spec.wrong_in_each row.now (filter (is_named name) (map seen trees.now))) }
{
    let mut rest = trees;
    while let Some((tree, after)) = rest.split_first() {
        if is_element(name, tree) {
            match wrong_in(alloc, row, tree)? {
                Some(kind) => return Ok(Some(kind)),
                None => {}
            }
        }
        rest = after;
    }
    Ok(None)
}

/// What is wrong with the elements of a name in one.
#[tactic(auto, using(text_spec::proofs::Seen::children_seen), unfolding(text_spec::specs::Look::all_of))]
fn wrong_in_all(
    alloc: Global,
    row: &Row,
    name: ElementName,
    tree: &Tree,
) -> Result<Option<DefKind>, NoMemory>
    ensures { IfOk result (λ found. found
        ≡ spec.wrong_in_each row.now (all_of name (seen tree.now))) }
{
    wrong_among(alloc, row, name, tree.children.as_slice())
}

/// What is wrong with the elements of a row that may occur any number of times.
fn wrong_in_each(alloc: Global, row: &Row, tree: &Tree) -> Result<Option<DefKind>, NoMemory>
    ensures { IfOk result (λ found. found
        ≡ spec.wrong_in_each row.now (elements_at row.now.place (seen tree.now))) }
{
    match row.place {
        Place::Here => match wrong_in(alloc, row, tree)? {
            Some(kind) => Ok(Some(kind)),
            None => Ok(None),
        },
        Place::Child(name) => wrong_in_all(alloc, row, name, tree),
        Place::Inside(outer, name) => match first_of(outer, tree) {
            Some(outer) => wrong_in_all(alloc, row, name, outer),
            None => Ok(None),
        },
    }
}

/// What is wrong with a row's values in the element that its table is of.
#[tactic(auto, unfolding(text_spec::specs::Table::wrong_at))]
fn wrong_at(alloc: Global, row: &Row, tree: &Tree) -> Result<Option<DefKind>, NoMemory>
    ensures { IfOk result (λ found. found ≡ spec.wrong_at row.now (seen tree.now)) }
{
    match row.need {
        Need::Needed | Need::Optional => { wrong_in_first(alloc, row, element_at(row.place, tree)) }
        Need::Each => wrong_in_each(alloc, row, tree),
    }
}

fn row_test(
    alloc: Global,
    names: &[ElementName],
    row: &Row,
    tree: &Tree,
) -> Result<(), OrNoMemory<DefFault>>
    ensures { Tests result (spec.placed (names.now ++ spec.names_of row.now.place)
        (spec.wrong_at row.now (seen tree.now))) }
{
    match wrong_at(alloc, row, tree)? {
        None => Ok(()),
        Some(kind) => Err(OrNoMemory::Fault(fault_at(alloc, names, row.place, kind)?)),
    }
}

/// Tests the element that these names lead to by the rows of its table. The fault is that of the
/// first row that has one.
#[tactic(auto, unfolding(text_spec::specs::Table::rows_fault))]
pub fn rows_test(
    alloc: Global,
    names: &[ElementName],
    rows: &[Row],
    tree: &Tree,
) -> Result<(), OrNoMemory<DefFault>>
    ensures { Tests result (spec.rows_fault names.now rows.now (seen tree.now)) }
{
    let mut rest = rows;
    while let Some((row, after)) = rest.split_first() {
        match row_test(alloc, names, row, tree) {
            Ok(()) => {}
            Err(fault) => return Err(fault),
        }
        rest = after;
    }
    Ok(())
}

/// A fault at the root element, whichever it is.
#[tactic(auto, using(text_spec::proofs::Seen::name_seen))]
pub fn fault_of_root(alloc: Global, kind: DefKind, tree: &Tree) -> Result<DefFault, NoMemory>
    ensures { IfOk result (λ f. f ≡ spec.fault_of_root kind (seen tree.now)) }
{
    let mut path = String::new(alloc);
    path.push_str("/")?;
    path.push_str(tree.name.as_str())?;
    Ok(DefFault {
        path: Text::of(path),
        kind,
    })
}
