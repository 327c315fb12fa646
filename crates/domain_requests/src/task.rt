// What is asked of a domain.
use virt_types::{Boxed, Call, DeviceDef, Query};

/// What a procedure asks of one domain.
#[derive(Drop)]
pub enum Task {
    /// This is read of it.
    Read(Query),
    /// This call is to be done.
    Run(Call),
    /// Its transitions are to be sent from now on.
    Register,
    /// They are to be sent no more.
    Deregister,
}

/// What a request for one domain is, as its words say.
#[derive(Drop)]
pub enum Parsed {
    /// This device is to be attached, once what it lacks is filled in.
    Attach(Boxed<DeviceDef>),
    /// This, as it is.
    Ready(Task),
}
