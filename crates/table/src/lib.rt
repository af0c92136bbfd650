//! The table of task records, and the places of its jobs: which run, which are among the first, which is next.
#![tactic(auto)]

/// The holder nearest its end.
pub mod holders;
/// Which jobs run, and which are among the first.
pub mod jobs;
/// Which tasks are in each cluster.
pub mod members;
/// The job whose request is issued next.
pub mod next;
/// 64 records, of which one is lent at a time.
mod records;
/// Which jobs are looked at.
pub mod selection;
/// The records with the plan of their tasks.
pub mod table;
/// The records of all tasks, read and changed by the number of a task.
pub mod tasks;
