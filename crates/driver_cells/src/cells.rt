// The cells of a driver, and rows of passes for them.
use domain_tasks::{DomainCell, DomainObj, Keeper, Opening};
use files_disk::Files;
use monitor_link::Guests;
use object_list::ObjectList;
use pass_rows::RowOf;
use turn_cell::TurnCell;

/// The cells of a driver: the list of domains, the store, and the domain in each slot.
#[derive(Drop)]
pub struct Cells<F: Files + Drop, K: Opening, G: Guests> {
    /// The list of domains.
    pub list: TurnCell<ObjectList>,
    /// The store of definitions.
    pub store: TurnCell<Keeper<F, K>>,
    /// The domain in each slot of the list.
    pub domains: Vec<DomainObj<G>>,
}

/// A pass of each of these cells, and a maker of guests.
pub type Row<F, K, G> = RowOf<ObjectList, Keeper<F, K>, DomainCell<G>, G>;
