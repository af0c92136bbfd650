//! Slots: a bank of slot resources.
#![tactic(auto)]

/// One resource and its parties.
pub mod line;
/// A bank of slot resources.
pub mod slots;
