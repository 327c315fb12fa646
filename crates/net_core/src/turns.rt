// The calls of the book in turns. Each mark bears the number of the pass that has the turn.
ghost use Rattle.std.specs.Prelude.{◌≡◌, ℕ, ◌<◌, ◌^◌, true, IfOk, IfErr, Ok};
ghost use Rattle.book_spec.specs.declared.book.NetAnswer.TheVariants.{Refused};
ghost use Rattle.book_spec.specs.declared.book.NetCall.{NetCall};
ghost use Rattle.book_spec.specs.declared.book.NetCall.TheVariants as call;
ghost use Rattle.book_spec.specs.NetCalls.{IsStored};
ghost use Rattle.book_spec.specs.NetHistory.{CanCall, HasCalled, MayCall, told, told_lease, with_call, with_mark};
ghost use Rattle.net_core.specs.Turns.{HasAsked};

use crate::book::NetBook;
use book_spec::LeaseFault;
use std::sync::Wait;
use turn_cell::{Pass, Turn, TurnCell};
use virt_types::{Mac, NetDef, OrNoMemory, Refusal, Text, Uuid};

/// The right to take turns at the book.
pub type NetPass = Pass<NetBook>;

/// The book, while a pass has its turn.
pub type NetTurn = Turn<NetBook>;

// In the turn of the pass of this number.
fn may_define_as(turn: &mut NetTurn, def: &NetDef) -> Result<(), Refusal>
    ghost number: { ℕ }
    requires { turn.old.value.chapter < 2 ^ 62 }
    ensures may { MayCall number (call.Define def.now) result turn.old.value turn.new.value }
    ensures same { turn.new ≡ record turn.old { value = turn.new.value } }
{
    turn.value().may_define(def)
}

/// Whether a network may be defined so, in a turn.
pub fn may_define_in(turn: &mut NetTurn, def: &NetDef) -> Result<(), Refusal>
    requires { turn.old.value.chapter < 2 ^ 62 }
    ensures may { MayCall turn.old.pass.number (call.Define def.now) result turn.old.value turn.new.value }
    ensures same { turn.new ≡ record turn.old { value = turn.new.value } }
{
    may_define_as(turn, def)
}

// In the turn of the pass of this number.
fn may_undefine_as(turn: &mut NetTurn, uuid: Uuid) -> Result<(), Refusal>
    ghost number: { ℕ }
    requires { turn.old.value.chapter < 2 ^ 62 }
    ensures may { MayCall number (call.Undefine uuid) result turn.old.value turn.new.value }
    ensures same { turn.new ≡ record turn.old { value = turn.new.value } }
{
    turn.value().may_undefine(uuid)
}

/// Whether a network may be taken out, in a turn.
pub fn may_undefine_in(turn: &mut NetTurn, uuid: Uuid) -> Result<(), Refusal>
    requires { turn.old.value.chapter < 2 ^ 62 }
    ensures may { MayCall turn.old.pass.number (call.Undefine uuid) result turn.old.value turn.new.value }
    ensures same { turn.new ≡ record turn.old { value = turn.new.value } }
{
    may_undefine_as(turn, uuid)
}

// In the turn of the pass of this number.
fn may_autostart_as(turn: &mut NetTurn, uuid: Uuid, on: bool) -> Result<(), Refusal>
    ghost number: { ℕ }
    requires { turn.old.value.chapter < 2 ^ 62 }
    ensures may { MayCall number (call.Autostart uuid on) result turn.old.value turn.new.value }
    ensures same { turn.new ≡ record turn.old { value = turn.new.value } }
{
    turn.value().may_autostart(uuid, on)
}

/// Whether it may be said of a network that it is started where the daemon starts, in a turn.
pub fn may_autostart_in(turn: &mut NetTurn, uuid: Uuid, on: bool) -> Result<(), Refusal>
    requires { turn.old.value.chapter < 2 ^ 62 }
    ensures may { MayCall turn.old.pass.number (call.Autostart uuid on) result turn.old.value turn.new.value }
    ensures same { turn.new ≡ record turn.old { value = turn.new.value } }
{
    may_autostart_as(turn, uuid, on)
}

// In the turn of the pass of this number.
fn define_as(turn: &mut NetTurn, def: NetDef) -> Result<(), Refusal>
    ghost number: { ℕ }
    requires { CanCall (call.Define def) turn.old.value }
    ensures done { result ≡ Ok tt }
    ensures called { turn.new.value ≡ with_call number (call.Define def) turn.old.value }
    ensures same { turn.new ≡ record turn.old { value = turn.new.value } }
{
    turn.value().define(def)
}

/// Defines a network, once the store has it, in a turn.
pub fn define_in(turn: &mut NetTurn, def: NetDef) -> Result<(), Refusal>
    requires { CanCall (call.Define def) turn.old.value }
    ensures done { result ≡ Ok tt }
    ensures called { turn.new.value ≡ with_call turn.old.pass.number (call.Define def) turn.old.value }
    ensures same { turn.new ≡ record turn.old { value = turn.new.value } }
{
    define_as(turn, def)
}

// In the turn of the pass of this number.
fn undefine_as(turn: &mut NetTurn, uuid: Uuid) -> Result<(), Refusal>
    ghost number: { ℕ }
    requires { CanCall (call.Undefine uuid) turn.old.value }
    ensures done { result ≡ Ok tt }
    ensures called { turn.new.value ≡ with_call number (call.Undefine uuid) turn.old.value }
    ensures same { turn.new ≡ record turn.old { value = turn.new.value } }
{
    turn.value().undefine(uuid)
}

/// Takes a network out, once the store has dropped it, in a turn.
pub fn undefine_in(turn: &mut NetTurn, uuid: Uuid) -> Result<(), Refusal>
    requires { CanCall (call.Undefine uuid) turn.old.value }
    ensures done { result ≡ Ok tt }
    ensures called { turn.new.value ≡ with_call turn.old.pass.number (call.Undefine uuid) turn.old.value }
    ensures same { turn.new ≡ record turn.old { value = turn.new.value } }
{
    undefine_as(turn, uuid)
}

// In the turn of the pass of this number.
fn autostart_as(turn: &mut NetTurn, uuid: Uuid, on: bool) -> Result<(), Refusal>
    ghost number: { ℕ }
    requires { CanCall (call.Autostart uuid on) turn.old.value }
    ensures done { result ≡ Ok tt }
    ensures called { turn.new.value ≡ with_call number (call.Autostart uuid on) turn.old.value }
    ensures same { turn.new ≡ record turn.old { value = turn.new.value } }
{
    turn.value().autostart(uuid, on)
}

/// Says of a network whether it is started where the daemon starts, once the store has it, in a turn.
pub fn autostart_in(turn: &mut NetTurn, uuid: Uuid, on: bool) -> Result<(), Refusal>
    requires { CanCall (call.Autostart uuid on) turn.old.value }
    ensures done { result ≡ Ok tt }
    ensures called { turn.new.value ≡ with_call turn.old.pass.number (call.Autostart uuid on) turn.old.value }
    ensures same { turn.new ≡ record turn.old { value = turn.new.value } }
{
    autostart_as(turn, uuid, on)
}

// In the turn of the pass of this number.
fn start_as(turn: &mut NetTurn, uuid: Uuid) -> Result<(), Refusal>
    ghost number: { ℕ }
    requires { turn.old.value.chapter < 2 ^ 62 }
    ensures called { HasCalled number (call.Start uuid) (told result) turn.old.value turn.new.value }
    ensures same { turn.new ≡ record turn.old { value = turn.new.value } }
{
    turn.value().start(uuid)
}

/// Starts a network, in a turn.
pub fn start_in(turn: &mut NetTurn, uuid: Uuid) -> Result<(), Refusal>
    requires { turn.old.value.chapter < 2 ^ 62 }
    ensures called { HasCalled turn.old.pass.number (call.Start uuid) (told result) turn.old.value turn.new.value }
    ensures same { turn.new ≡ record turn.old { value = turn.new.value } }
{
    start_as(turn, uuid)
}

// In the turn of the pass of this number.
fn stop_as(turn: &mut NetTurn, uuid: Uuid) -> Result<(), Refusal>
    ghost number: { ℕ }
    requires { turn.old.value.chapter < 2 ^ 62 }
    ensures called { HasCalled number (call.Stop uuid) (told result) turn.old.value turn.new.value }
    ensures same { turn.new ≡ record turn.old { value = turn.new.value } }
{
    turn.value().stop(uuid)
}

/// Stops a network, and its leases end, in a turn.
pub fn stop_in(turn: &mut NetTurn, uuid: Uuid) -> Result<(), Refusal>
    requires { turn.old.value.chapter < 2 ^ 62 }
    ensures called { HasCalled turn.old.pass.number (call.Stop uuid) (told result) turn.old.value turn.new.value }
    ensures same { turn.new ≡ record turn.old { value = turn.new.value } }
{
    stop_as(turn, uuid)
}

// In the turn of the pass of this number.
fn lease_as(turn: &mut NetTurn, name: &Text, mac: Mac) -> Result<u32, OrNoMemory<LeaseFault>>
    ghost number: { ℕ }
    requires { turn.old.value.chapter < 2 ^ 62 }
    ensures called { HasCalled number (call.Lease name.now mac) (told_lease result) turn.old.value turn.new.value }
    ensures same { turn.new ≡ record turn.old { value = turn.new.value } }
{
    turn.value().lease(name, mac)
}

/// Leases an address of the network of this name to an interface, in a turn.
pub fn lease_in(turn: &mut NetTurn, name: &Text, mac: Mac) -> Result<u32, OrNoMemory<LeaseFault>>
    requires { turn.old.value.chapter < 2 ^ 62 }
    ensures called { HasCalled turn.old.pass.number (call.Lease name.now mac) (told_lease result) turn.old.value turn.new.value }
    ensures same { turn.new ≡ record turn.old { value = turn.new.value } }
{
    lease_as(turn, name, mac)
}

// In the turn of the pass of this number.
fn refuse_as(turn: &mut NetTurn, refusal: Refusal)
    ghost asked: { ℕ × NetCall }
    requires stored { IsStored asked.1 }
    requires can { CanCall asked.1 turn.old.value }
    ensures refused { turn.new.value ≡ with_mark (record { number = asked.0; call = asked.1; answer = Refused refusal }) turn.old.value }
    ensures same { turn.new ≡ record turn.old { value = turn.new.value } }
{
    turn.value().refuse(refusal);
}

/// The store refused the change of the call that might be done, in a turn.
pub fn refuse_in(turn: &mut NetTurn, refusal: Refusal)
    ghost asked: { NetCall }
    requires stored { IsStored asked }
    requires can { CanCall asked turn.old.value }
    ensures refused { turn.new.value ≡ with_mark (record { number = turn.old.pass.number; call = asked; answer = Refused refusal }) turn.old.value }
    ensures same { turn.new ≡ record turn.old { value = turn.new.value } }
{
    refuse_as(turn, refusal);
}

/// Takes a turn. Starts a network. Where no ticket is left, the pass comes back.
pub fn start<R: Wait>(
    rt: &R,
    cell: &TurnCell<NetBook>,
    pass: NetPass,
    uuid: Uuid,
) -> Result<(NetPass, Result<(), Refusal>), NetPass>
    requires { pass.cell ≡ cell.now }
    ensures asked { IfOk result (λ r. HasAsked (call.Start uuid) (told r.1) pass r.0) }
    ensures spent { IfErr result (λ after. after ≡ record pass { spent = true }) }
{
    let mut turn = match cell.enter(rt, pass) {
        Ok(turn) => turn,
        Err((pass, _)) => return Err(pass),
    };
    let started = start_in(&mut turn, uuid);
    Ok((cell.leave(turn), started))
}

/// Takes a turn. Stops a network, and its leases end. Where no ticket is left, the pass comes back.
pub fn stop<R: Wait>(
    rt: &R,
    cell: &TurnCell<NetBook>,
    pass: NetPass,
    uuid: Uuid,
) -> Result<(NetPass, Result<(), Refusal>), NetPass>
    requires { pass.cell ≡ cell.now }
    ensures asked { IfOk result (λ r. HasAsked (call.Stop uuid) (told r.1) pass r.0) }
    ensures spent { IfErr result (λ after. after ≡ record pass { spent = true }) }
{
    let mut turn = match cell.enter(rt, pass) {
        Ok(turn) => turn,
        Err((pass, _)) => return Err(pass),
    };
    let stopped = stop_in(&mut turn, uuid);
    Ok((cell.leave(turn), stopped))
}

/// Takes a turn. Leases an address of the network of this name to an interface. Where no ticket is left, the pass comes back.
pub fn lease<R: Wait>(
    rt: &R,
    cell: &TurnCell<NetBook>,
    pass: NetPass,
    name: &Text,
    mac: Mac,
) -> Result<(NetPass, Result<u32, OrNoMemory<LeaseFault>>), NetPass>
    requires { pass.cell ≡ cell.now }
    ensures asked { IfOk result (λ r. HasAsked (call.Lease name.now mac) (told_lease r.1) pass r.0) }
    ensures spent { IfErr result (λ after. after ≡ record pass { spent = true }) }
{
    let mut turn = match cell.enter(rt, pass) {
        Ok(turn) => turn,
        Err((pass, _)) => return Err(pass),
    };
    let leased = lease_in(&mut turn, name, mac);
    Ok((cell.leave(turn), leased))
}
