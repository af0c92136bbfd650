//! Rows of ordered elements: how many come before one, and which comes first.
#![tactic(auto)]

/// Jobs and holders, each with its order.
pub mod elements;
/// How many of a row come first, and which is first.
pub mod row;
