//! The rule book of the controller: the states of a task, the calls with their answers and
//! refusals, and what every run of calls keeps.
#![tactic(auto)]

/// What calls are answered.
pub mod answer;
/// What is called.
pub mod call;
/// A call with what became of it.
pub mod event;
/// Why a call is refused.
pub mod refusal;
/// The states of a task, and its record.
pub mod task;
