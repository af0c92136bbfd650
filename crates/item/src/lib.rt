//! An item of a plan, read from its line and written as its line.
#![tactic(auto)]

mod ending;
/// What one line says.
pub mod item;
/// From a line to its item.
pub mod read;
/// From an item to its line.
pub mod write;
