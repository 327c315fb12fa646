// Laws of the definitions: each function's contract is one, and its body does nothing.
ghost use Rattle.core_dispatch.specs.Outlasting.{OutlastsBoots, OutlastsOperations};

/// What was made for a call still fits it after the end of a boot.
pub fn parts_outlast_boots()
    ensures { OutlastsBoots }
{}

/// What was made for a call still fits it after the end of the operation beside it.
pub fn parts_outlast_operations()
    ensures { OutlastsOperations }
{}
