// The calls of the book in turns. Each mark bears the number of the pass that has the turn.
ghost use Rattle.std.specs.Prelude.{◌≡◌, ℕ, ◌<◌, ◌^◌, true, IfOk, IfErr, Ok};
ghost use Rattle.book_spec.specs.declared.pool_book.PoolAnswer.TheVariants.{Refused};
ghost use Rattle.book_spec.specs.declared.pool_book.PoolCall.{PoolCall};
ghost use Rattle.book_spec.specs.declared.pool_book.PoolCall.TheVariants as call;
ghost use Rattle.book_spec.specs.PoolCalls.{IsStored};
ghost use Rattle.book_spec.specs.PoolHistory.{CanCall, HasCalled, MayCall, told, with_call, with_mark};
ghost use Rattle.pool_core.specs.Turns.{HasAsked};

use crate::book::PoolBook;
use std::sync::Wait;
use turn_cell::{Pass, Turn, TurnCell};
use virt_types::{Name, PoolDef, Refusal, Uuid, VolDef};

/// The right to take turns at the book.
pub type PoolPass = Pass<PoolBook>;

/// The book, while a pass has its turn.
pub type PoolTurn = Turn<PoolBook>;

// In the turn of the pass of this number.
fn may_define_as(turn: &mut PoolTurn, def: &PoolDef) -> Result<(), Refusal>
    ghost number: { ℕ }
    requires { turn.old.value.chapter < 2 ^ 62 }
    ensures may { MayCall number (call.Define def.now) result turn.old.value turn.new.value }
    ensures same { turn.new ≡ record turn.old { value = turn.new.value } }
{
    turn.value().may_define(def)
}

/// Whether a pool may be defined so, in a turn.
pub fn may_define_in(turn: &mut PoolTurn, def: &PoolDef) -> Result<(), Refusal>
    requires { turn.old.value.chapter < 2 ^ 62 }
    ensures may { MayCall turn.old.pass.number (call.Define def.now) result turn.old.value turn.new.value }
    ensures same { turn.new ≡ record turn.old { value = turn.new.value } }
{
    may_define_as(turn, def)
}

// In the turn of the pass of this number.
fn may_undefine_as(turn: &mut PoolTurn, uuid: Uuid) -> Result<(), Refusal>
    ghost number: { ℕ }
    requires { turn.old.value.chapter < 2 ^ 62 }
    ensures may { MayCall number (call.Undefine uuid) result turn.old.value turn.new.value }
    ensures same { turn.new ≡ record turn.old { value = turn.new.value } }
{
    turn.value().may_undefine(uuid)
}

/// Whether a pool may be taken out, in a turn.
pub fn may_undefine_in(turn: &mut PoolTurn, uuid: Uuid) -> Result<(), Refusal>
    requires { turn.old.value.chapter < 2 ^ 62 }
    ensures may { MayCall turn.old.pass.number (call.Undefine uuid) result turn.old.value turn.new.value }
    ensures same { turn.new ≡ record turn.old { value = turn.new.value } }
{
    may_undefine_as(turn, uuid)
}

// In the turn of the pass of this number.
fn may_autostart_as(turn: &mut PoolTurn, uuid: Uuid, on: bool) -> Result<(), Refusal>
    ghost number: { ℕ }
    requires { turn.old.value.chapter < 2 ^ 62 }
    ensures may { MayCall number (call.Autostart uuid on) result turn.old.value turn.new.value }
    ensures same { turn.new ≡ record turn.old { value = turn.new.value } }
{
    turn.value().may_autostart(uuid, on)
}

/// Whether it may be said of a pool that it is started where the daemon starts, in a turn.
pub fn may_autostart_in(turn: &mut PoolTurn, uuid: Uuid, on: bool) -> Result<(), Refusal>
    requires { turn.old.value.chapter < 2 ^ 62 }
    ensures may { MayCall turn.old.pass.number (call.Autostart uuid on) result turn.old.value turn.new.value }
    ensures same { turn.new ≡ record turn.old { value = turn.new.value } }
{
    may_autostart_as(turn, uuid, on)
}

// In the turn of the pass of this number.
fn define_as(turn: &mut PoolTurn, def: PoolDef) -> Result<(), Refusal>
    ghost number: { ℕ }
    requires { CanCall (call.Define def) turn.old.value }
    ensures done { result ≡ Ok tt }
    ensures called { turn.new.value ≡ with_call number (call.Define def) turn.old.value }
    ensures same { turn.new ≡ record turn.old { value = turn.new.value } }
{
    turn.value().define(def)
}

/// Defines a pool, once the store has it, in a turn.
pub fn define_in(turn: &mut PoolTurn, def: PoolDef) -> Result<(), Refusal>
    requires { CanCall (call.Define def) turn.old.value }
    ensures done { result ≡ Ok tt }
    ensures called { turn.new.value ≡ with_call turn.old.pass.number (call.Define def) turn.old.value }
    ensures same { turn.new ≡ record turn.old { value = turn.new.value } }
{
    define_as(turn, def)
}

// In the turn of the pass of this number.
fn undefine_as(turn: &mut PoolTurn, uuid: Uuid) -> Result<(), Refusal>
    ghost number: { ℕ }
    requires { CanCall (call.Undefine uuid) turn.old.value }
    ensures done { result ≡ Ok tt }
    ensures called { turn.new.value ≡ with_call number (call.Undefine uuid) turn.old.value }
    ensures same { turn.new ≡ record turn.old { value = turn.new.value } }
{
    turn.value().undefine(uuid)
}

/// Takes a pool out, once the store has dropped it, in a turn.
pub fn undefine_in(turn: &mut PoolTurn, uuid: Uuid) -> Result<(), Refusal>
    requires { CanCall (call.Undefine uuid) turn.old.value }
    ensures done { result ≡ Ok tt }
    ensures called { turn.new.value ≡ with_call turn.old.pass.number (call.Undefine uuid) turn.old.value }
    ensures same { turn.new ≡ record turn.old { value = turn.new.value } }
{
    undefine_as(turn, uuid)
}

// In the turn of the pass of this number.
fn autostart_as(turn: &mut PoolTurn, uuid: Uuid, on: bool) -> Result<(), Refusal>
    ghost number: { ℕ }
    requires { CanCall (call.Autostart uuid on) turn.old.value }
    ensures done { result ≡ Ok tt }
    ensures called { turn.new.value ≡ with_call number (call.Autostart uuid on) turn.old.value }
    ensures same { turn.new ≡ record turn.old { value = turn.new.value } }
{
    turn.value().autostart(uuid, on)
}

/// Says of a pool whether it is started where the daemon starts, once the store has it, in a turn.
pub fn autostart_in(turn: &mut PoolTurn, uuid: Uuid, on: bool) -> Result<(), Refusal>
    requires { CanCall (call.Autostart uuid on) turn.old.value }
    ensures done { result ≡ Ok tt }
    ensures called { turn.new.value ≡ with_call turn.old.pass.number (call.Autostart uuid on) turn.old.value }
    ensures same { turn.new ≡ record turn.old { value = turn.new.value } }
{
    autostart_as(turn, uuid, on)
}

// In the turn of the pass of this number.
fn start_as(turn: &mut PoolTurn, uuid: Uuid) -> Result<(), Refusal>
    ghost number: { ℕ }
    requires { turn.old.value.chapter < 2 ^ 62 }
    ensures called { HasCalled number (call.Start uuid) (told result) turn.old.value turn.new.value }
    ensures same { turn.new ≡ record turn.old { value = turn.new.value } }
{
    turn.value().start(uuid)
}

/// Starts a pool, in a turn.
pub fn start_in(turn: &mut PoolTurn, uuid: Uuid) -> Result<(), Refusal>
    requires { turn.old.value.chapter < 2 ^ 62 }
    ensures called { HasCalled turn.old.pass.number (call.Start uuid) (told result) turn.old.value turn.new.value }
    ensures same { turn.new ≡ record turn.old { value = turn.new.value } }
{
    start_as(turn, uuid)
}

// In the turn of the pass of this number.
fn stop_as(turn: &mut PoolTurn, uuid: Uuid) -> Result<(), Refusal>
    ghost number: { ℕ }
    requires { turn.old.value.chapter < 2 ^ 62 }
    ensures called { HasCalled number (call.Stop uuid) (told result) turn.old.value turn.new.value }
    ensures same { turn.new ≡ record turn.old { value = turn.new.value } }
{
    turn.value().stop(uuid)
}

/// Stops a pool, which keeps its volumes, in a turn.
pub fn stop_in(turn: &mut PoolTurn, uuid: Uuid) -> Result<(), Refusal>
    requires { turn.old.value.chapter < 2 ^ 62 }
    ensures called { HasCalled turn.old.pass.number (call.Stop uuid) (told result) turn.old.value turn.new.value }
    ensures same { turn.new ≡ record turn.old { value = turn.new.value } }
{
    stop_as(turn, uuid)
}

// In the turn of the pass of this number.
fn make_volume_as(turn: &mut PoolTurn, pool: Uuid, def: VolDef) -> Result<(), Refusal>
    ghost number: { ℕ }
    requires { turn.old.value.chapter < 2 ^ 62 }
    ensures called { HasCalled number (call.MakeVolume pool def) (told result) turn.old.value turn.new.value }
    ensures same { turn.new ≡ record turn.old { value = turn.new.value } }
{
    turn.value().make_volume(pool, def)
}

/// Makes a volume in an active pool, in a turn.
pub fn make_volume_in(turn: &mut PoolTurn, pool: Uuid, def: VolDef) -> Result<(), Refusal>
    requires { turn.old.value.chapter < 2 ^ 62 }
    ensures called { HasCalled turn.old.pass.number (call.MakeVolume pool def) (told result) turn.old.value turn.new.value }
    ensures same { turn.new ≡ record turn.old { value = turn.new.value } }
{
    make_volume_as(turn, pool, def)
}

// In the turn of the pass of this number.
fn drop_volume_as(turn: &mut PoolTurn, pool: Uuid, name: &Name) -> Result<(), Refusal>
    ghost number: { ℕ }
    requires { turn.old.value.chapter < 2 ^ 62 }
    ensures called { HasCalled number (call.DropVolume pool name.now) (told result) turn.old.value turn.new.value }
    ensures same { turn.new ≡ record turn.old { value = turn.new.value } }
{
    turn.value().drop_volume(pool, name)
}

/// Deletes a volume of an active pool, in a turn.
pub fn drop_volume_in(turn: &mut PoolTurn, pool: Uuid, name: &Name) -> Result<(), Refusal>
    requires { turn.old.value.chapter < 2 ^ 62 }
    ensures called { HasCalled turn.old.pass.number (call.DropVolume pool name.now) (told result) turn.old.value turn.new.value }
    ensures same { turn.new ≡ record turn.old { value = turn.new.value } }
{
    drop_volume_as(turn, pool, name)
}

// In the turn of the pass of this number.
fn refuse_as(turn: &mut PoolTurn, refusal: Refusal)
    ghost asked: { ℕ × PoolCall }
    requires stored { IsStored asked.1 }
    requires can { CanCall asked.1 turn.old.value }
    ensures refused { turn.new.value ≡ with_mark (record { number = asked.0; call = asked.1; answer = Refused refusal }) turn.old.value }
    ensures same { turn.new ≡ record turn.old { value = turn.new.value } }
{
    turn.value().refuse(refusal);
}

/// The store refused the change of the call that might be done, in a turn.
pub fn refuse_in(turn: &mut PoolTurn, refusal: Refusal)
    ghost asked: { PoolCall }
    requires stored { IsStored asked }
    requires can { CanCall asked turn.old.value }
    ensures refused { turn.new.value ≡ with_mark (record { number = turn.old.pass.number; call = asked; answer = Refused refusal }) turn.old.value }
    ensures same { turn.new ≡ record turn.old { value = turn.new.value } }
{
    refuse_as(turn, refusal);
}

/// Takes a turn. Starts a pool. Where no ticket is left, the pass comes back.
pub fn start<R: Wait>(
    rt: &R,
    cell: &TurnCell<PoolBook>,
    pass: PoolPass,
    uuid: Uuid,
) -> Result<(PoolPass, Result<(), Refusal>), PoolPass>
    requires { pass.cell ≡ cell.now }
    ensures asked { IfOk result (λ r. HasAsked (call.Start uuid) (told r.1) pass r.0) }
    ensures spent { IfErr result (λ after. after ≡ record pass { spent = true }) }
{
    let mut turn = match cell.enter(rt, pass) {
        Ok(turn) => turn,
        Err((pass, _)) => return Err(pass),
    };
    let started = start_in(&mut turn, uuid);
    Ok((cell.leave(turn), started))
}

/// Takes a turn. Stops a pool, which keeps its volumes. Where no ticket is left, the pass comes back.
pub fn stop<R: Wait>(
    rt: &R,
    cell: &TurnCell<PoolBook>,
    pass: PoolPass,
    uuid: Uuid,
) -> Result<(PoolPass, Result<(), Refusal>), PoolPass>
    requires { pass.cell ≡ cell.now }
    ensures asked { IfOk result (λ r. HasAsked (call.Stop uuid) (told r.1) pass r.0) }
    ensures spent { IfErr result (λ after. after ≡ record pass { spent = true }) }
{
    let mut turn = match cell.enter(rt, pass) {
        Ok(turn) => turn,
        Err((pass, _)) => return Err(pass),
    };
    let stopped = stop_in(&mut turn, uuid);
    Ok((cell.leave(turn), stopped))
}

/// Takes a turn. Makes a volume in an active pool. Where no ticket is left, the pass comes back.
pub fn make_volume<R: Wait>(
    rt: &R,
    cell: &TurnCell<PoolBook>,
    pass: PoolPass,
    pool: Uuid,
    def: VolDef,
) -> Result<(PoolPass, Result<(), Refusal>), PoolPass>
    requires { pass.cell ≡ cell.now }
    ensures asked { IfOk result (λ r. HasAsked (call.MakeVolume pool def) (told r.1) pass r.0) }
    ensures spent { IfErr result (λ after. after ≡ record pass { spent = true }) }
{
    let mut turn = match cell.enter(rt, pass) {
        Ok(turn) => turn,
        Err((pass, _)) => return Err(pass),
    };
    let made = make_volume_in(&mut turn, pool, def);
    Ok((cell.leave(turn), made))
}

/// Takes a turn. Deletes a volume of an active pool. Where no ticket is left, the pass comes back.
pub fn drop_volume<R: Wait>(
    rt: &R,
    cell: &TurnCell<PoolBook>,
    pass: PoolPass,
    pool: Uuid,
    name: &Name,
) -> Result<(PoolPass, Result<(), Refusal>), PoolPass>
    requires { pass.cell ≡ cell.now }
    ensures asked { IfOk result (λ r. HasAsked (call.DropVolume pool name.now) (told r.1) pass r.0) }
    ensures spent { IfErr result (λ after. after ≡ record pass { spent = true }) }
{
    let mut turn = match cell.enter(rt, pass) {
        Ok(turn) => turn,
        Err((pass, _)) => return Err(pass),
    };
    let dropped = drop_volume_in(&mut turn, pool, name);
    Ok((cell.leave(turn), dropped))
}
