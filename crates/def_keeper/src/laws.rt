// Laws of openings: each function's contract is one, and its body does nothing.
ghost use Rattle.def_keeper.specs.Laws.{OpeningsKeepDefinitions};

/// A crash at any moment of an opening leaves the files of definitions as a crash before it may leave
/// them.
pub fn openings_keep_definitions()
    ensures { OpeningsKeepDefinitions }
{}
