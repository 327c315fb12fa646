// Laws of the definitions: each function's contract is one, and its body does nothing.
ghost use Rattle.domain_core.specs.Shares.{FreeSharesBegin, FreeSharesLook, FreeSharesTakeUp, OpenSharesGoBack, OperationSharesEnd, OperationSharesPhase, RegisteredSharesTake};

/// A pass of which nothing is open may look.
pub fn free_shares_look()
    ensures { FreeSharesLook }
{}

/// It may begin an operation.
pub fn free_shares_begin()
    ensures { FreeSharesBegin }
{}

/// It may take one up.
pub fn free_shares_take_up()
    ensures { FreeSharesTakeUp }
{}

/// A pass whose open call waits for an answer may be answered.
pub fn open_shares_go_back()
    ensures { OpenSharesGoBack }
{}

/// A pass that has an operation open may go on with its due phase.
pub fn operation_shares_phase()
    ensures { OperationSharesPhase }
{}

/// It may end the operation once that is over.
pub fn operation_shares_end()
    ensures { OperationSharesEnd }
{}

/// A pass that has a registration may take what pends for it.
pub fn registered_shares_take()
    ensures { RegisteredSharesTake }
{}
