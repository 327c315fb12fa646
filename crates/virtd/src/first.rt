// What a daemon does before it serves anybody.
use virt_types::RequestList;

/// What a daemon does before it serves anybody.
#[derive(Drop)]
pub enum First {
    /// It starts the domains which the store says are to be started.
    Start,
    /// It makes these requests, and serves nobody where one is refused.
    Make(RequestList),
}
