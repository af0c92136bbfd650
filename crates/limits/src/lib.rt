//! The wait limits of each resource of a bank, as lines.
#![tactic(auto)]

/// The wait limits of all resources.
pub mod limits;
/// The line of one resource.
pub mod line;
/// How long the lines are at most.
pub mod size;
