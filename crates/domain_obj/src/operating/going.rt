// What an operation does in one turn, under the number of its pass.
ghost use Rattle.std.specs.Prelude.{◌≡◌, ◌<◌, ◌^◌, ℕ};
ghost use Rattle.domain_spec.specs.CanTake.{WaitsAsNoOther};
ghost use Rattle.domain_core.specs.Celled.{cell_in, standing_in};
ghost use Rattle.domain_obj.specs.Going.{EndsIn, IsRenewedIfCan, MayEnd, MayGoOn, PhasesIn, RenewsAndGoesOn};
ghost use Rattle.domain_core.specs.OfTurns.{CanEnd};
ghost use Rattle.domain_core.specs.OfTurns.{IsDue};

use crate::{DomainTurn, end_long_chapter};
use domain_core::PhaseLook;
use history_spec::Stamp;
use monitor_link::Guests;
use std::alloc::Global;
use virt_types::{NoMemory, Reply, Who};

// A long chapter ends, if there is memory for the next one; without it the chapter just goes on.
fn end_chapter_if_can<G: Guests>(turn: &mut DomainTurn<G>, alloc: Global, who: Who)
    requires waits { WaitsAsNoOther (cell_in turn.old.value) turn.old.pass.number who }
    requires chapter { turn.old.value.core.turning.chapter < 2 ^ 62 }
    ensures renewed { IsRenewedIfCan turn.old.pass.number who turn.old.value turn.new.value }
    ensures same { turn.new ≡ record turn.old { value = turn.new.value } }
{
    match end_long_chapter(turn, alloc, who) {
        Ok(()) => {}
        Err(NoMemory) => {}
    }
}

// The due phase looks, under this number.
fn phase_as<G: Guests>(turn: &mut DomainTurn<G>, alloc: Global, who: Who) -> PhaseLook<G>
    ghost number: { ℕ }
    requires due { IsDue (standing_in turn.old.value).operation number who }
    ensures phases { PhasesIn number who turn.old.value turn.new.value result }
    ensures same { turn.new ≡ record turn.old { value = turn.new.value } }
{
    let by = Stamp::named();
    turn.value().phase(alloc, by, who)
}

// The same under the number of the pass that has the turn.
fn go_on<G: Guests>(turn: &mut DomainTurn<G>, alloc: Global, who: Who) -> PhaseLook<G>
    requires due { IsDue (standing_in turn.old.value).operation turn.old.pass.number who }
    ensures phases { PhasesIn turn.old.pass.number who turn.old.value turn.new.value result }
    ensures same { turn.new ≡ record turn.old { value = turn.new.value } }
{
    phase_as(turn, alloc, who)
}

/// A long chapter ends, if there is memory for the next one, and then the due phase of the operation that the pass has
/// open is admitted where no normal job is open.
pub fn phase_in<G: Guests>(turn: &mut DomainTurn<G>, alloc: Global, who: Who) -> PhaseLook<G>
    requires may { MayGoOn turn.old.pass.number who turn.old.value }
    requires chapter { turn.old.value.core.turning.chapter < 2 ^ 62 }
    ensures goes { RenewsAndGoesOn turn.old.pass.number who turn.old.value turn.new.value result }
    ensures same { turn.new ≡ record turn.old { value = turn.new.value } }
{
    end_chapter_if_can(turn, alloc, who);
    go_on(turn, alloc, who)
}

// The operation ends, under this number.
fn end_as<G: Guests>(turn: &mut DomainTurn<G>, alloc: Global, who: Who) -> Reply
    ghost number: { ℕ }
    requires over { CanEnd (standing_in turn.old.value).operation number who }
    ensures ends { EndsIn number who turn.old.value turn.new.value result }
    ensures same { turn.new ≡ record turn.old { value = turn.new.value } }
{
    let by = Stamp::named();
    turn.value().end_op(alloc, by, who)
}

/// The operation that the pass has open, and that is over, ends with the reply of its last phase.
#[tactic(auto, using(crate::proofs::Stepped::can_end))]
pub fn end_in<G: Guests>(turn: &mut DomainTurn<G>, alloc: Global, who: Who) -> Reply
    requires over { MayEnd turn.old.pass.number who turn.old.value }
    ensures ends { EndsIn turn.old.pass.number who turn.old.value turn.new.value result }
    ensures same { turn.new ≡ record turn.old { value = turn.new.value } }
{
    end_as(turn, alloc, who)
}
