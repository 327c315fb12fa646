// What is left of a driver.
use driver_open::ObjectList;

/// What is left of the cells of a driver, once nobody takes a turn there any more.
#[derive(Drop)]
pub struct Books {
    /// What happened in the chapter of the domain in each slot.
    pub cells: Vec<driver_open::Chronicle>,
    /// The list of domains.
    pub list: ObjectList,
    /// What happened to the store.
    pub store: def_keeper::Chronicle,
}
