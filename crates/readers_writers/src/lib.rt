//! Readers and writers: a bank of reader-writer resources.
#![tactic(auto)]

/// One active party.
pub mod entry;
mod line;
/// A bank of reader-writer resources.
pub mod lines;
