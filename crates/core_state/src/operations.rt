// How an operation begins, is taken up, and ends.
ghost use Rattle.std.specs.Prelude.{◌≡◌, ◌<◌, ◌^◌, ◌+◌, IfOk, OnErr, OnOk, Some, None, option_map, replicate, unwrap_or};
ghost use Rattle.domain_spec.specs.Begin.{begin_state, begun, begun_with, boot_definition, cause_at_start, definition_with_state, due_phase, first_phase, new_live, new_op, op_taken_up, ran_there, revert_phase, taken_up_state};
ghost use Rattle.domain_spec.specs.Call.{begins, phase_taken_up};
ghost use Rattle.domain_spec.specs.CallResult.{new_domain};
ghost use Rattle.domain_spec.specs.Chapter.{opened_state};
ghost use Rattle.domain_spec.specs.Phase.{without_operation};
ghost use Rattle.domain_spec.specs.Snapshots.{snapshot_named};
ghost use Rattle.domain_spec.specs.Tests.{state_kept};
ghost use Rattle.domain_spec.specs.Types.kind;
ghost use Rattle.domain_spec.specs.Types.state;
ghost use Rattle.core_state.specs.Beginnings.{HasNumber, NumbersBoot};

use core_rules::{boot_in, operation_begun, slots_at_start};
use std::alloc::Global;
use uuid::Uuid;
use virt_types::{
    Call, Cause, Domain, DomainDef, Live, Name, NoMemory, Op, OpKind, Phase, RunState, SnapList,
    State, TryCopy, Who,
};

// The definition with which an inactive domain goes back to a snapshot that has a guest's state.
fn definition_with_state(snaps: &SnapList, name: &Name) -> Result<Option<DomainDef>, NoMemory>
    ensures { IfOk result (λ def. def ≡ definition_with_state (snapshot_named snaps.now name.now)) }
{
    match snaps.find(name) {
        Some(snap) if snap.run.is_some() => Ok(Some(snap.def.copy()?)),
        _ => Ok(None),
    }
}

// The definition of the new boot that an operation makes, if it makes one.
fn boot_definition(domain: &Domain, call: &Call) -> Result<Option<DomainDef>, NoMemory>
    ensures { IfOk result (λ def. def ≡ boot_definition domain.now call.now) }
{
    match call {
        Call::Start => domain.stored.copy(),
        Call::Create(def) => Ok(Some(def.as_ref().copy()?)),
        Call::Restore { definition, .. } => Ok(Some(definition.as_ref().copy()?)),
        Call::Prepare { definition, .. } => Ok(Some(definition.as_ref().copy()?)),
        Call::Revert(name) => match &domain.live {
            None => definition_with_state(&domain.snaps, name),
            Some(_) => Ok(None),
        },
        _ => Ok(None),
    }
}

// Whether the snapshot of this name is there, and has a guest's state.
fn state_kept(snaps: &SnapList, name: &Name) -> bool
    ensures { result ≡ state_kept (snapshot_named snaps.now name.now) }
{
    match snaps.find(name) {
        None => false,
        Some(snap) => snap.run.is_some(),
    }
}

fn revert_phase(active: bool, kept: bool) -> Phase
    ensures { result ≡ revert_phase active kept }
{
    match (active, kept) {
        (true, true) => Phase::Load,
        (true, false) => Phase::Quit,
        (false, true) => Phase::Make,
        (false, false) => Phase::Nothing,
    }
}

// The phase that an operation begins with.
fn first_phase(domain: &Domain, call: &Call) -> Phase
    ensures { result ≡ first_phase domain.now call.now }
{
    match call {
        Call::Save(_) | Call::Dump(_) => Phase::Copy,
        Call::Perform => Phase::MigrateCopy,
        Call::Snapshot(_) => {
            if domain.live.is_some() {
                Phase::Copy
            } else {
                Phase::Take
            }
        }
        Call::Revert(name) => {
            revert_phase(domain.live.is_some(), state_kept(&domain.snaps, name))
        }
        _ => Phase::Make,
    }
}

// A new operation, before its first phase.
fn new_op(
    kind: OpKind,
    who: Who,
    boot: Option<u64>,
    new_boot: bool,
    was_running: bool,
    phase: Phase,
) -> Op
    ensures { result ≡ new_op kind who boot new_boot was_running phase }
{
    Op {
        kind,
        who,
        boot,
        new_boot,
        phase,
        was_running,
        abort: false,
        still: 0,
        remaining: None,
        refusal: None,
        limit: 0,
        rests: false,
    }
}

fn cause_at_start(kind: OpKind) -> Cause
    ensures { result ≡ cause_at_start kind }
{
    match kind {
        OpKind::MigrateIn => Cause::Moved,
        _ => Cause::Starting,
    }
}

// The live part of a new boot, which stands still until its operation lets it run.
fn new_live(alloc: Global, kind: OpKind, def: DomainDef, boot: u64) -> Result<Live, NoMemory>
    ensures { IfOk result (λ live. live ≡ new_live kind def boot) }
{
    let slots = slots_at_start(alloc, &def)?;
    Ok(Live {
        boot,
        run: RunState::Paused(cause_at_start(kind)),
        def,
        slots,
    })
}

fn ran_there(call: &Call) -> bool
    ensures { result ≡ ran_there call.now }
{
    match call {
        Call::Prepare { running, .. } => *running,
        _ => false,
    }
}

// The operation begins in a domain: on the guest that it has, or on a new boot of this definition.
fn begin_with(
    alloc: Global,
    domain: &mut Domain,
    kind: OpKind,
    who: Who,
    ran: bool,
    first: Phase,
    def: Option<DomainDef>,
) -> Result<(), NoMemory>
    requires { NumbersBoot domain.old.boots def }
    ensures ok { OnOk result (domain.new ≡ begun_with domain.old kind who ran first def) }
    ensures err { OnErr result (domain.new ≡ domain.old) }
{
    match def {
        None => {
            let boot = boot_in(&domain.live);
            domain.op = Some(new_op(kind, who, boot, false, ran, first));
            Ok(())
        }
        Some(def) => {
            let boot = domain.boots + 1;
            domain.live = Some(new_live(alloc, kind, def, boot)?);
            domain.boots = boot;
            domain.op = Some(new_op(kind, who, Some(boot), true, ran, first));
            Ok(())
        }
    }
}

fn kind_begun(call: &Call) -> OpKind
    ensures { result ≡ unwrap_or (begins call.now) kind.Start }
{
    operation_begun(call).unwrap_or(OpKind::Start)
}

fn begin_held(alloc: Global, domain: &mut Domain, who: Who, call: &Call) -> Result<(), NoMemory>
    requires { NumbersBoot domain.old.boots (boot_definition domain.old call.now) }
    ensures ok { OnOk result (domain.new ≡ begun domain.old who call.now) }
    ensures err { OnErr result (domain.new ≡ domain.old) }
{
    let def = boot_definition(domain, call)?;
    let first = first_phase(domain, call);
    begin_with(
        alloc,
        domain,
        kind_begun(call),
        who,
        ran_there(call),
        first,
        def,
    )
}

// Sixteen zeros stand for an identifier that is not filled in.
fn uuid_or_nil(uuid: Option<Uuid>) -> Uuid
    ensures { result ≡ unwrap_or uuid (replicate 16 0) }
{
    uuid.unwrap_or(Uuid::nil())
}

/// A domain as its first definition makes it, with neither a guest nor snapshots.
pub fn new_domain(def: &DomainDef, boots: u64) -> Result<Domain, NoMemory>
    ensures { IfOk result (λ domain. domain ≡ new_domain def.now boots) }
{
    Ok(Domain {
        uuid: uuid_or_nil(def.uuid),
        name: def.name.copy()?,
        stored: None,
        live: None,
        autostart: false,
        snaps: SnapList::new(),
        current: None,
        op: None,
        boots,
        last: None,
    })
}

// A vacant cell gets the domain of this definition, and the operation begins there.
fn begin_vacant(
    alloc: Global,
    def: &DomainDef,
    boots: u64,
    who: Who,
    call: &Call,
) -> Result<State, NoMemory>
    requires { NumbersBoot boots (boot_definition (new_domain def.now boots) call.now) }
    ensures { IfOk result (λ next. next ≡ state.Held (begun (new_domain def.now boots) who call.now)) }
{
    let mut domain = new_domain(def, boots)?;
    begin_held(alloc, &mut domain, who, call)?;
    Ok(State::Held(domain))
}

/// The operation of this call begins: on the guest that the domain has, or on a new boot. A vacant
/// cell gets a domain without a stored definition. Where there is no memory nothing changes.
pub fn begin(alloc: Global, state: &mut State, who: Who, call: &Call) -> Result<(), NoMemory>
    requires { HasNumber state.old call.now }
    ensures ok { OnOk result (state.new ≡ begin_state state.old who call.now) }
    ensures err { OnErr result (state.new ≡ state.old) }
{
    match state {
        State::Held(domain) => begin_held(alloc, domain, who, call),
        State::Vacant { boots } => {
            match call {
                Call::Create(def) => {
                    *state = begin_vacant(alloc, def.as_ref(), *boots, who, call)?;
                }
                Call::Restore { definition, .. } => {
                    *state = begin_vacant(alloc, definition.as_ref(), *boots, who, call)?;
                }
                Call::Prepare { definition, .. } => {
                    *state = begin_vacant(alloc, definition.as_ref(), *boots, who, call)?;
                }
                _ => (),
            }
            Ok(())
        }
    }
}

/// The phase that is due where this call has taken an operation up.
pub fn phase_taken_up(call: &Call) -> Phase
    ensures { result ≡ phase_taken_up call.now }
{
    match call {
        Call::Confirm(true) => Phase::MigrateQuit,
        Call::Confirm(false) => Phase::MigrateBack,
        Call::Finish(true) => Phase::MigrateRun,
        Call::Finish(false) => Phase::MigrateDrop,
        _ => Phase::Nothing,
    }
}

/// This call takes up the operation that rests.
pub fn take_up(state: &mut State, who: Who, call: &Call)
    ensures { state.new ≡ taken_up_state state.old who call.now }
{
    if let State::Held(domain) = state {
        if let Some(op) = &mut domain.op {
            op.who = who;
            op.phase = phase_taken_up(call);
            op.rests = false;
        }
    }
}

/// The operation has ended.
pub fn end_operation(state: &mut State)
    ensures { state.new ≡ without_operation state.old }
{
    if let State::Held(domain) = state {
        domain.op = None;
    }
}

/// The first phase of the operation that has begun in this state.
pub fn due_phase(state: &State) -> Phase
    ensures { result ≡ due_phase state.now }
{
    match state {
        State::Vacant { .. } => Phase::Nothing,
        State::Held(domain) => match &domain.op {
            None => Phase::Nothing,
            Some(op) => op.phase,
        },
    }
}

/// A domain's state as the store was opened: vacant, or with this stored definition and its
/// autostart.
pub fn opened_state(stored: Option<DomainDef>, autostart: bool) -> Result<State, NoMemory>
    ensures { IfOk result (λ next. next ≡ opened_state stored autostart) }
{
    match stored {
        None => Ok(State::Vacant { boots: 0 }),
        Some(def) => {
            let mut domain = new_domain(&def, 0)?;
            domain.stored = Some(def);
            domain.autostart = autostart;
            Ok(State::Held(domain))
        }
    }
}
