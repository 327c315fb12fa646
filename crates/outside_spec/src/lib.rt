//! When a fault of the outside may be reported: the definitions that sources, sinks, stores and worlds share.
#![tactic(auto)]
