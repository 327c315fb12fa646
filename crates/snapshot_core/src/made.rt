// What is made before the first ask of a call, or of a phase: all memory that it needs.
use crate::deletion::Deletion;
use crate::taking::Taking;
use core_rules::{PhaseTexts, Texts};
use virt_types::Name;

/// All memory that a call on snapshots needs.
#[derive(Drop)]
pub struct Parts {
    /// Room for its refusal.
    pub texts: Texts,
    /// What a deletion needs.
    pub deletion: Option<Deletion>,
}

/// All memory that a phase of an operation on snapshots needs.
#[derive(Drop)]
pub struct PhaseParts {
    /// Room for its refusal.
    pub texts: PhaseTexts,
    /// The name of the snapshot that a revert makes the current one.
    pub current: Option<Name>,
    /// What a snapshot needs that is taken.
    pub taking: Option<Taking>,
}
