// Who is registered.
ghost use Rattle.std.specs.Prelude.{◌≡◌};
ghost use Rattle.event_queue.specs.Listening.{has_client, registrations};

use crate::turns::DomainTurns;

impl DomainTurns {
    /// Whether this client is registered.
    pub fn has(&self, client: u32) -> bool
        ensures { result ≡ has_client self.now.turning.listeners client }
    {
        self.kept.has(client)
    }

    /// The registrations of the cell are those of its listeners. It does nothing.
    pub fn listens(&self)
        ensures { self.now.turning.cell.registrations ≡ registrations self.now.turning.listeners }
    {
        self.kept.has(0);
    }
}
