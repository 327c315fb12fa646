// Calls that begin an operation or take one up.
pub mod entered;
pub mod entering;
pub mod going;
pub mod operation;
pub mod phases;
pub mod phasing;
