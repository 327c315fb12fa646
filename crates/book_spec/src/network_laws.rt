// Laws of the definitions: each function's contract is one, and its body does nothing.
ghost use Rattle.book_spec.specs.WorkedLeases.{WorkedLeases};

/// Two addresses, one of which a host line has: who gets which.
pub fn worked_leases()
    ensures { WorkedLeases }
{}
