// What a call asks next. None asks more than once, and nothing undoes what it asks.
ghost use Rattle.std.specs.Prelude.{◌≡◌, ◌∷◌, [], IfOk, OnErr, if◌then◌else◌, true};
ghost use Rattle.domain_spec.specs.Asks.{asks_left, plain};
ghost use Rattle.domain_spec.specs.Call.{command_of, guest_plan, held_plan, live_plan, plan_of, put_plan, tell, tell_if};
ghost use Rattle.domain_spec.specs.Types.{Ask as TheAsk};
ghost use Rattle.domain_spec.specs.Types.ask;
ghost use Rattle.core_rules.specs.Cores.{core_of_call};
ghost use Rattle.core_rules.specs.Next.{is_ask, next_of};
ghost use Rattle.core_rules.specs.declared.next.Next.TheVariants as next;
ghost use Rattle.core_rules.specs.declared.cores.Core.TheVariants as core;

use core_rules::{Next, Place, is_paused, is_running, next_of_one, place_after};
use std::alloc::Global;
use virt_types::{Answer, Ask, Boxed, Call, Command, Domain, DomainDef, Live, NoMemory, State};

fn tell(command: Command, answers: &[Answer]) -> Next
    ensures { result ≡ next_of (asks_left (plain (tell command)) answers.now) }
{
    next_of_one(Some(Ask::Command(command)), answers)
}

fn nothing(answers: &[Answer]) -> Next
    ensures { result ≡ next_of (asks_left (plain []) answers.now) }
{
    next_of_one(None, answers)
}

fn tell_if(wanted: bool, command: Command, answers: &[Answer]) -> Next
    ensures { result ≡ next_of (asks_left (plain (tell_if wanted command)) answers.now) }
{
    if wanted {
        tell(command, answers)
    } else {
        nothing(answers)
    }
}

// The one command of a call on a guest.
fn command_of(live: &Live, call: &Call, answers: &[Answer]) -> Next
    ensures { result ≡ next_of (asks_left (plain (command_of live.now call.now)) answers.now) }
{
    match call {
        Call::Suspend => tell_if(is_running(live.run), Command::Stop, answers),
        Call::Resume => tell_if(is_paused(live.run), Command::Cont, answers),
        Call::Shutdown => tell(Command::Powerdown, answers),
        Call::Reboot => tell(Command::Reset, answers),
        Call::Destroy => tell(Command::Quit, answers),
        Call::SetMemory(kib) => tell(Command::SetMemory(*kib), answers),
        Call::SetVcpus(n) => tell(Command::SetVcpus(*n), answers),
        Call::MemoryStats => tell(Command::QueryMemory, answers),
        Call::Kick(n) => tell(Command::Kick(n.unsigned_abs()), answers),
        _ => nothing(answers),
    }
}

fn live_next(live: &Live, call: &Call, answers: &[Answer]) -> Next
    requires { core_of_call call.now ≡ core.Lifecycle }
    ensures { result ≡ next_of (asks_left (live_plan live.now call.now) answers.now) }
{
    match call {
        Call::Attach(_) | Call::Detach(_) => Next::Finish,
        _ => command_of(live, call, answers),
    }
}

fn guest_next(live: &Option<Live>, call: &Call, answers: &[Answer]) -> Next
    requires { core_of_call call.now ≡ core.Lifecycle }
    ensures { result ≡ next_of (asks_left (guest_plan live.now call.now) answers.now) }
{
    match live {
        None => nothing(answers),
        Some(live) => live_next(live, call, answers),
    }
}

// Whether nothing was answered yet: then one ask is next, if there is one.
#[tactic(auto, using(crate::proofs::OneAsk::one_asked))]
fn is_first(answers: &[Answer]) -> bool
    ensures { (a : TheAsk) → next_of (asks_left (plain (a ∷ [])) answers.now) ≡ (if result then next.Ask a else next.Finish) }
{
    match place_after(answers) {
        Place::Plan(place) => place == 0,
        Place::Undo { .. } | Place::Through => false,
    }
}

// The definition is copied only where it is asked for: no memory is wanted once that was answered.
fn put(
    alloc: Global,
    def: &DomainDef,
    autostart: bool,
    answers: &[Answer],
) -> Result<Next, NoMemory>
    ensures value { IfOk result (λ next. next ≡ next_of (asks_left (plain (ask.Put def.now autostart ∷ [])) answers.now)) }
    ensures memory { OnErr result (is_ask (next_of (asks_left (plain (ask.Put def.now autostart ∷ [])) answers.now)) ≡ true) }
{
    if !is_first(answers) {
        return Ok(Next::Finish);
    }
    match Boxed::copy_of(alloc, def) {
        Ok(definition) => Ok(Next::Ask(Ask::Put {
            definition,
            autostart,
        })),
        Err(e) => Err(e),
    }
}

fn put_again(
    alloc: Global,
    stored: &Option<DomainDef>,
    autostart: bool,
    answers: &[Answer],
) -> Result<Next, NoMemory>
    ensures value { IfOk result (λ next. next ≡ next_of (asks_left (put_plan stored.now autostart) answers.now)) }
    ensures memory { OnErr result (is_ask (next_of (asks_left (put_plan stored.now autostart) answers.now)) ≡ true) }
{
    match stored {
        None => Ok(nothing(answers)),
        Some(def) => put(alloc, def, autostart, answers),
    }
}

fn held_next(
    alloc: Global,
    domain: &Domain,
    call: &Call,
    answers: &[Answer],
) -> Result<Next, NoMemory>
    requires { core_of_call call.now ≡ core.Lifecycle }
    ensures value { IfOk result (λ next. next ≡ next_of (asks_left (held_plan domain.now call.now) answers.now)) }
    ensures memory { OnErr result (is_ask (next_of (asks_left (held_plan domain.now call.now) answers.now)) ≡ true) }
{
    match call {
        Call::Define(def) => put(alloc, def.as_ref(), domain.autostart, answers),
        Call::Undefine => Ok(next_of_one(Some(Ask::Drop(domain.uuid)), answers)),
        Call::SetAutostart(on) => put_again(alloc, &domain.stored, *on, answers),
        _ => Ok(guest_next(&domain.live, call, answers)),
    }
}

/// What a call asks next whose tests passed.
pub fn next_asked(
    alloc: Global,
    state: &State,
    call: &Call,
    answers: &[Answer],
) -> Result<Next, NoMemory>
    requires { core_of_call call.now ≡ core.Lifecycle }
    ensures value { IfOk result (λ next. next ≡ next_of (asks_left (plan_of state.now call.now) answers.now)) }
    ensures memory { OnErr result (is_ask (next_of (asks_left (plan_of state.now call.now) answers.now)) ≡ true) }
{
    match state {
        State::Vacant { .. } => match call {
            Call::Define(def) => put(alloc, def.as_ref(), false, answers),
            _ => Ok(nothing(answers)),
        },
        State::Held(domain) => held_next(alloc, domain, call, answers),
    }
}
