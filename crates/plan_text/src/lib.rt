//! Whole plans as text: read into the place of a plan, and written into memory handed in.
#![tactic(auto)]

/// From a text to a plan.
pub mod read;
/// From a plan to its text.
pub mod write;
