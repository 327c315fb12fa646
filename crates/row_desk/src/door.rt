// The store, as a row reaches it.
ghost use Rattle.std.specs.Prelude.{◌≡◌};
ghost use Rattle.row_desk.specs.Asking.{IsAnsweredByStore, IsForStore};

use core::mem;
use def_keeper::{Keeper, KeeperPass, Opening};
use files_disk::Files;
use std::alloc::Global;
use std::marker::Model;
use std::sync::Wait;
use store_asks::ask_store;
use turn_cell::TurnCell;
use virt_types::{Answer, Ask};

/// The store's cell, with a pass for it. Contracts see the pass.
pub struct StoreDoor<'a, R: Wait, F: Files + Drop, K: Opening> {
    rt: &'a R,
    alloc: Global,
    cell: &'a TurnCell<Keeper<F, K>>,
    pass: KeeperPass<F, K>,
}

impl<'a, R: Wait, F: Files + Drop, K: Opening> Model for StoreDoor<'a, R, F, K> {
    ghost use Rattle.std.specs.Prelude.{◌≡◌};
    ghost use Rattle.row_desk.specs.Views.{StorePass};

    ghost Value = { StorePass };

    ghost view = { λ d. d.pass };

    ghost invariant = { λ d. d.pass.cell ≡ d.cell.now };
}

// What is taken along to a turn of the store.
struct Visit<'a, R: Wait, F: Files + Drop, K: Opening> {
    rt: &'a R,
    alloc: Global,
    cell: &'a TurnCell<Keeper<F, K>>,
    asked: &'a Ask,
}

// Takes a turn of the store, and asks.
fn visited<'a, R: Wait, F: Files + Drop, K: Opening>(
    pass: KeeperPass<F, K>,
    visit: Visit<'a, R, F, K>,
) -> (KeeperPass<F, K>, Answer)
    requires own { pass.cell ≡ visit.cell.now }
    requires store { IsForStore visit.asked.now }
    ensures { IsAnsweredByStore F.told F.faults visit.entry.asked.now pass result.0 result.1 }
{
    let Visit {
        rt,
        alloc,
        cell,
        asked,
    } = visit;
    match ask_store(rt, alloc, cell, pass, asked) {
        Ok((pass, answer)) => (pass, answer.unwrap()),
        Err(pass) => (pass, Answer::NoMemory),
    }
}

impl<'a, R: Wait, F: Files + Drop, K: Opening> StoreDoor<'a, R, F, K> {
    /// The door of this pass.
    pub(crate) fn new(
        rt: &'a R,
        alloc: Global,
        cell: &'a TurnCell<Keeper<F, K>>,
        pass: KeeperPass<F, K>,
    ) -> StoreDoor<'a, R, F, K>
        requires { pass.cell ≡ cell.now }
        ensures { result ≡ pass }
    {
        StoreDoor {
            rt,
            alloc,
            cell,
            pass,
        }
    }

    /// Asks the store in a turn of the pass. Where no ticket is left for it, the answer is that there is no memory: that is
    /// the one answer which needs no mark of the store.
    pub(crate) fn ask(&mut self, asked: &Ask) -> Answer
        requires { IsForStore asked.now }
        ensures { IsAnsweredByStore F.told F.faults asked.now self.old self.new result }
    {
        let visit = Visit {
            rt: self.rt,
            alloc: self.alloc,
            cell: self.cell,
            asked,
        };
        mem::replace_with(&mut self.pass, visit, visited)
    }

    /// Gives back the pass.
    pub(crate) fn into_pass(self) -> KeeperPass<F, K>
        ensures { result ≡ self.entry }
    {
        let StoreDoor {
            rt: _,
            alloc: _,
            cell: _,
            pass,
        } = self;
        pass
    }
}
