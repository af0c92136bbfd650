ghost use Rattle.std.specs.Prelude.{◌≡◌, ℕ, ◌<◌, ◌≤◌, length, replicate, slice_index_or, slice_set};
ghost use Rattle.rules.specs.declared.task.Task.{Task as Record};
ghost use Rattle.rules.specs.States.{idle_task};
ghost use Rattle.table.specs.Tasks.{has_issued, NoneIssuedFrom, none_issued_prop};

use crate::records::Records;
use rules::task::{State, Task};

/// The records of all tasks. They are read by the number of a task, and changed one at a time.
#[derive(Debug, PartialEq, Eq, Drop)]
pub struct Tasks {
    records: Records<Task>,
    // where a loop over the tasks with an issued request may end
    issued_end: usize,
    ghost all_records: { length records.rows ≡ 64 },
    ghost none_issued: { NoneIssuedFrom issued_end records.rows } by { none_issued_prop issued_end records.rows },
}

// Whether the request of a task in this state is issued.
fn has_issued(state: State) -> bool
    ensures { result ≡ has_issued state }
{
    matches!(state, State::Waiting(_) | State::Holding(_))
}

impl Tasks {
    /// Records of tasks that are all idle.
    pub fn idle() -> Tasks
        ensures { result.records.rows ≡ replicate 64 idle_task }
    {
        Tasks {
            records: Records {
                rows: [Task::IDLE; 64],
            },
            issued_end: 0,
        }
    }

    /// The records, each at the place of its task.
    pub fn rows(&self) -> &[Task; 64]
        ensures { result.now ≡ self.now.records.rows }
    {
        &self.records.rows
    }

    /// The record of one task. From 64 on there are none, and it is that of an idle task.
    pub fn get(&self, t: usize) -> Task
        ensures { result ≡ slice_index_or self.now.records.rows t idle_task }
    {
        if t < 64 {
            self.records.rows[t]
        } else {
            Task::IDLE
        }
    }

    /// No task from this one on waits or holds. It may be more than the least such task.
    #[tactic(auto, unfolding(crate::specs::Tasks::NoneIssuedFrom))]
    pub fn issued_end(&self) -> usize
        ensures none { NoneIssuedFrom result self.now.records.rows }
        ensures within { result ≤ 64 }
    {
        self.issued_end.min(64)
    }

    // The same, where the state of one task changes.
    #[tactic(auto, unfolding(crate::specs::Tasks::NoneIssuedFrom))]
    fn end_with(&self, t: usize, state: State) -> usize
        requires { t < 64 }
        ensures { (task : Record) → task.state ≡ state
            → NoneIssuedFrom result (slice_set self.now.records.rows t task) }
    {
        if has_issued(state) {
            self.issued_end.max(t + 1)
        } else if self.issued_end == t + 1 {
            t
        } else {
            self.issued_end
        }
    }

    /// Changes the record of one task. There is none from 64 on, and nothing changes then.
    pub fn store(&mut self, t: usize, task: Task)
        ensures stored { t < 64 → self.new.records.rows ≡ slice_set self.old.records.rows t task }
        ensures kept { 64 ≤ t → self.new ≡ self.old }
    {
        if t < 64 {
            let end = self.end_with(t, task.state);
            self.records.store(t, task);
            self.issued_end = end;
        }
    }

    /// Changes the ticks that one task has used and was blocked for, and leaves its state. There is
    /// none from 64 on, and nothing changes then.
    pub fn set_ticks(&mut self, t: usize, used: u32, blocked: u32)
        ensures stored { t < 64 → self.new.records.rows ≡ slice_set self.old.records.rows t
            (record (slice_index_or self.old.records.rows t idle_task) { used = used; blocked = blocked }) }
        ensures kept { 64 ≤ t → self.new ≡ self.old }
    {
        if t < 64 {
            self.records.set_ticks(t, used, blocked);
        }
    }
}
