// The tests of a call, judged without memory.
ghost use Rattle.std.specs.Prelude.{◌≡◌, map, option_map};
ghost use Rattle.domain_spec.specs.Refusals.{invalid};
ghost use Rattle.domain_spec.specs.Tests.{active, crashed, fails_if, first_refusal, inactive, moved, none_stored, outside, spent};
ghost use Rattle.core_rules.specs.Checks.{test_of};
ghost use Rattle.core_rules.specs.Reasons.{refusal_for};

use crate::reading::{has_crashed, has_moved, state_in};
use crate::reason::Reason;
use virt_types::{Domain, Live};

/// A test of a call.
#[derive(Clone, Copy, Debug, PartialEq, Eq)]
pub struct Check {
    /// Whether the call fails it.
    pub fails: bool,
    /// Why it is refused then.
    pub reason: Reason,
}

/// Why a call is refused that has these tests: for the first that fails.
pub fn first_failing(checks: &[Check]) -> Option<Reason>
    ensures { option_map (λ r. refusal_for r) result ≡ first_refusal (map test_of checks.now) }
{
    match checks {
        [] => None,
        [first, rest @ ..] => {
            if first.fails {
                Some(first.reason)
            } else {
                first_failing(rest)
            }
        }
    }
}

/// It fails where this is so, since the state of the domain does not allow it.
pub fn invalid_if(fails: bool, live: &Option<Live>) -> Check
    ensures { test_of result ≡ fails_if fails (invalid live.now) }
{
    Check {
        fails,
        reason: Reason::Invalid(state_in(live)),
    }
}

/// There is no guest.
pub fn inactive(domain: &Domain) -> Check
    ensures { test_of result ≡ inactive domain.now }
{
    invalid_if(domain.live.is_none(), &domain.live)
}

/// There is a guest.
pub fn active(domain: &Domain) -> Check
    ensures { test_of result ≡ active domain.now }
{
    invalid_if(domain.live.is_some(), &domain.live)
}

/// The guest crashed.
pub fn crashed(domain: &Domain) -> Check
    ensures { test_of result ≡ crashed domain.now }
{
    invalid_if(has_crashed(&domain.live), &domain.live)
}

/// The guest stands still between two hosts.
pub fn moved(domain: &Domain) -> Check
    ensures { test_of result ≡ moved domain.now }
{
    invalid_if(has_moved(&domain.live), &domain.live)
}

/// There is no stored definition.
pub fn none_stored(domain: &Domain) -> Check
    ensures { test_of result ≡ none_stored domain.now }
{
    invalid_if(domain.stored.is_none(), &domain.live)
}

// The number at which boots come to their end.
const MOST_BOOTS: u64 = 1 << 62;

/// No more boots can be numbered.
pub fn spent(boots: u64) -> Check
    ensures { test_of result ≡ spent boots }
{
    Check {
        fails: MOST_BOOTS <= boots,
        reason: Reason::BootsSpent,
    }
}

/// A number is not from low to high.
pub fn outside(n: u64, low: u64, high: u64) -> Check
    ensures { test_of result ≡ outside n low high }
{
    Check {
        fails: n < low || high < n,
        reason: Reason::OutOfRange { n, low, high },
    }
}
