//! Event lines: a line is read as a call, and an event, a call with its answer, is printed as one.
#![tactic(auto)]

/// From a line to its call.
pub mod read;
/// From an event to its line.
pub mod write;
