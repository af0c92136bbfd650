//! The dry run: a plan and event lines from an input that comes in pieces, and what is printed of it.
#![tactic(auto)]

/// The banks of a plan.
pub mod banks;
/// What one event line does.
pub mod line;
pub mod play;
mod preamble;
mod read;
/// The line of a refused plan.
pub mod refused;
/// A dry run in the middle of its input.
pub mod run;
mod tries;
mod write;
