//! A pair of banks is a bank.
#![tactic(auto)]

/// Two banks as one.
pub mod pair;
/// Entering within the seats of a pair.
pub mod within;
