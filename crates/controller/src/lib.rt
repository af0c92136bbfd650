//! A controller: tasks that share resources by a plan, over any bank.
#![tactic(auto)]

/// Where a call moves its task, or which condition it fails.
pub mod call;
/// A controller and its calls.
pub mod controller;
/// The state after a call.
pub mod state;
