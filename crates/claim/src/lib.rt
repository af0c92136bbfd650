//! Claims: a task's own code asks for a claim, and gives back with it.
#![tactic(auto)]

/// An ask that gives a claim, and a give that spends it.
pub mod calls;
/// What a claim is.
pub mod claim;
