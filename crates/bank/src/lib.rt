//! A bank: shared resources with their lines of waiting requests, by what it means.
#![tactic(auto)]

/// Ticks of so many turns.
pub mod limit;
/// What a bank is, and promises.
pub mod meaning;
/// The place of a resource, and whether a party is one.
pub mod place;
/// Why a bank refuses a call.
pub mod refusal;
/// Requests and their modes.
pub mod request;
/// How much a bank has room for.
pub mod size;
