// What listeners are told.
ghost use Rattle.std.specs.Prelude.{◌≡◌, ◌++◌, ◌≤◌};
ghost use Rattle.domain_spec.specs.CallResult.{tell_listeners};

use virt_types::{Transition, TransitionList};

/// Listeners are told of one transition, where the case is so.
pub fn tell_listeners(so: bool, transition: Transition, into: &mut TransitionList)
    requires { 1 ≤ into.old.room }
    ensures { into.new.list ≡ into.old.list ++ tell_listeners so transition }
{
    if so {
        into.push(transition);
    }
}
