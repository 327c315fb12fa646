// Laws of the definitions: each function's contract is one, and its body does nothing.
ghost use Rattle.book_spec.specs.WorkedVolumes.{WorkedVolumes};

/// A pool of 100 bytes: which volumes fit.
pub fn worked_volumes()
    ensures { WorkedVolumes }
{}
