// Which packets a client looks at. It passes over all others.
ghost use Rattle.std.specs.Prelude.{◌≡◌};
ghost use Rattle.rpc_client.specs.Messages as spec;

use packet::{Header, MESSAGE, REPLY};
use procedure_spec::{EVENT, EVENT_LOST, OWN, VERSION};

/// Whether it answers a call.
pub(crate) fn is_reply(header: &Header) -> bool
    ensures { result ≡ spec.is_reply header.now }
{
    header.kind == REPLY
}

/// Whether it reports an event, or that events were lost.
pub(crate) fn is_event(header: &Header) -> bool
    ensures { result ≡ spec.is_event header.now }
{
    (header.kind == MESSAGE && header.prog == OWN)
        && (header.vers == VERSION && (header.procedure == EVENT || header.procedure == EVENT_LOST))
}
