//! A plan: its tables, a draft that takes lines, and the sealed plan.
#![tactic(auto)]

/// A plan in the making.
pub mod draft;
/// What an item puts into the tables.
pub mod entry;
/// The sealed plan and its questions.
pub mod plan;
/// The kinds of resources.
pub mod resource;
/// A table of resources.
pub mod resources;
/// The tables of a plan, and how a line is added to them.
pub mod tables;
