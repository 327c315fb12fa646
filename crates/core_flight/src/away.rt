// What is kept of a call between its two turns.
ghost use Rattle.std.specs.Prelude.{◌≡◌, ◌≤◌, ◌<◌, [], IfOk};
ghost use Rattle.domain_spec.specs.Types.reply;
ghost use Rattle.domain_spec.specs.Types.value;
ghost use Rattle.core_plan.specs.Below.core_dispatch.Fits.{FitsCall};
ghost use Rattle.core_flight.specs.Away.{HasRooms};
ghost use Rattle.core_flight.specs.Turn.{IsReady};
ghost use Rattle.core_plan.specs.Tidy.{planned};

use core_plan::{CallParts, Course, course_of, parts};
use std::alloc::Global;
use virt_types::{
    Boxed, Call, NoMemory, Reply, RoomyList, State, TransitionList, TryCopy, Value, both,
};

/// What is kept of a call that waits for an answer: what it asks and was answered, what its Done needs,
/// and room for what listeners are told of it and of its boot's end, and for the reply in its mark.
#[derive(Drop)]
pub struct Away {
    pub course: Course,
    pub parts: CallParts,
    pub told: TransitionList,
    pub end: TransitionList,
    pub reply: Boxed<Reply>,
}

// Room for so many transitions.
fn room_for(alloc: Global, count: usize) -> Result<TransitionList, NoMemory>
    ensures list { IfOk result (λ told. told.list ≡ []) }
    ensures room { IfOk result (λ told. count ≤ told.room) }
{
    RoomyList::with_room(alloc, count)
}

/// Room for what a Done or a Phase tells, and for what the end of a boot does.
pub fn rooms(alloc: Global) -> Result<(TransitionList, TransitionList), NoMemory>
    ensures told { IfOk result (λ rooms. (rooms.0.list ≡ []) × (3 ≤ rooms.0.room)) }
    ensures end { IfOk result (λ rooms. (rooms.1.list ≡ []) × (0 < rooms.1.room)) }
{
    both(room_for(alloc, 3), room_for(alloc, 1))
}

// Room for the reply in a mark.
fn room_for_reply(alloc: Global) -> Result<Boxed<Reply>, NoMemory>
    ensures { IfOk result (λ room. room ≡ reply.Ok value.Nothing) }
{
    Boxed::new(alloc, Reply::Ok(Value::Nothing))
}

// The course of a call, and what its Done needs.
fn course_and_parts(
    alloc: Global,
    state: &State,
    call: &Call,
    boot: Option<u64>,
) -> Result<(Course, CallParts), NoMemory>
    ensures course { IfOk result (λ made. made.0 ≡ record { plan = planned state.now call.now boot; answers = [] }) }
    ensures parts { IfOk result (λ made. FitsCall made.1 state.now call.now boot) }
{
    both(
        course_of(alloc, state, call, boot),
        parts(alloc, state, call, boot),
    )
}

/// What a call needs that is let in, with two copies of it: its own, and the one in its mark.
#[derive(Drop)]
pub struct Ready {
    pub away: Away,
    pub own: Call,
    pub in_mark: Call,
}

impl Away {
    /// What a call needs that is let in here, carrying this boot.
    pub fn new(
        alloc: Global,
        state: &State,
        call: &Call,
        boot: Option<u64>,
    ) -> Result<Away, NoMemory>
        ensures course { IfOk result (λ away. away.course ≡ record { plan = planned state.now call.now boot; answers = [] }) }
        ensures parts { IfOk result (λ away. FitsCall away.parts state.now call.now boot) }
        ensures rooms { IfOk result HasRooms }
    {
        let rooms = both(rooms(alloc), room_for_reply(alloc));
        match both(course_and_parts(alloc, state, call, boot), rooms) {
            Ok(((course, parts), ((told, end), reply))) => Ok(Away {
                course,
                parts,
                told,
                end,
                reply,
            }),
            Err(e) => Err(e),
        }
    }
}

/// All that a call needs that is let in here, carrying this boot.
pub fn prepare(
    alloc: Global,
    state: &State,
    call: &Call,
    boot: Option<u64>,
) -> Result<Ready, NoMemory>
    ensures { IfOk result (IsReady state.now call.now boot) }
{
    let away = Away::new(alloc, state, call, boot);
    match both(away, both(call.copy(), call.copy())) {
        Ok((away, (own, in_mark))) => Ok(Ready { away, own, in_mark }),
        Err(e) => Err(e),
    }
}
