ghost use Rattle.std.specs.Prelude.{◌≡◌, ◌<◌, slice_index_or, slice_set};
ghost use Rattle.rules.specs.States.{idle_task};
ghost use Rattle.std.specs.Borrow.{sem, follows};
ghost use Rattle.table.specs.contracts.records.Records.{the_row};

use rules::task::Task;

/// The records of 64 tasks, in fixed memory, each at the place of its task's number. One of them is
/// lent at a time, so that what is done to it changes no other.
#[derive(Debug, PartialEq, Eq, Drop)]
pub struct Records<T> {
    // The record of each task.
    pub(crate) rows: [T; 64],
}

impl<T> Records<T> {
    // Lends the record of one task.
    fn record(&mut self, t: usize) -> &mut T
        requires { t < 64 }
        ensures* follows { sem 𝓛 (follows (the_row T.row) T.row self.entry.ghost_name result.ghost_name (λ w. record { rows = slice_set self.old.rows t w })) }
        ensures value { (d : T) → result.now ≡ slice_index_or self.old.rows t d }
    {
        &mut self.rows[t]
    }
}

impl Records<Task> {
    // Changes the record of one task.
    pub(crate) fn store(&mut self, t: usize, task: Task)
        requires { t < 64 }
        ensures { self.new.rows ≡ slice_set self.old.rows t task }
    {
        let place = self.record(t);
        *place = task;
    }

    // Changes the ticks that one task has used and was blocked for.
    pub(crate) fn set_ticks(&mut self, t: usize, used: u32, blocked: u32)
        requires { t < 64 }
        ensures { self.new.rows ≡ slice_set self.old.rows t
            (record (slice_index_or self.old.rows t idle_task) { used = used; blocked = blocked }) }
    {
        let place = self.record(t);
        place.used = used;
        place.blocked = blocked;
    }
}
