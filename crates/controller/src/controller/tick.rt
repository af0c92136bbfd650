ghost use Rattle.std.specs.Prelude.{◌≡◌, ℕ, ◌<◌, ◌≤◌, false, None, slice_index_or};
ghost use Rattle.controller.specs.Calls.{FollowsRuns, Makes};
ghost use Rattle.controller.specs.Of.{setup_of, snapshot_of};
ghost use Rattle.controller.specs.Ticks.{CanTick, TicksAll};
ghost use Rattle.rules.specs.Answers.{ticked};
ghost use Rattle.rules.specs.Questions.{late, late_task};
ghost use Rattle.rules.specs.States.{idle_task};

use crate::controller::Controller;
use crate::state::ticked;
use bank::meaning::Bank;
use rules::refusal::Refusal;
use rules::task::State;
use table::tasks::Tasks;

// The records one tick on.
#[tactic(auto, using(crate::proofs::Tasks::ticked_fields))]
fn tick_all(tasks: usize, table: &mut Tasks)
    requires { (tasks ≤ 64) × ((q : ℕ) → q < tasks → CanTick (slice_index_or table.old.records.rows q idle_task)) }
    ensures { TicksAll tasks table.old.records.rows table.new.records.rows }
{
    // by the number of a task, which is its place in the table; a record with no issued request
    // stays as it is
    for t in 0..tasks.min(table.issued_end()) {
        let next = ticked(table.get(t));
        table.set_ticks(t, next.used, next.blocked);
    }
}

impl<B: Bank> Controller<B> {
    // Whether a task holds and has used all of its length.
    fn is_late(&self, t: usize) -> bool
        requires { t < self.now.tasks }
        ensures late { result ≡ late (setup_of B.Bank self.now) (snapshot_of B.Bank self.now) t }
        ensures ticks { result ≡ false → CanTick (slice_index_or self.now.table.records.rows t idle_task) }
    {
        let job = self.table.get(t);
        let State::Holding(wanted) = job.state else {
            return false;
        };
        let length = self.plan.length(t, wanted.resource as usize).unwrap();
        job.used >= length as u32
    }

    // The lowest task that holds and has used all of its length.
    fn late_task(&self) -> Option<u32>
        ensures late { result ≡ late_task (setup_of B.Bank self.now) (snapshot_of B.Bank self.now) }
        ensures ticks { result ≡ None → (q : ℕ) → q < self.now.tasks → CanTick (slice_index_or self.now.table.records.rows q idle_task) }
    {
        // by the number of a task, which is its place in the table; who holds has an issued request
        for t in 0..self.tasks.min(self.table.issued_end()) {
            if self.is_late(t) {
                return Some(t as u32);
            }
        }
        None
    }

    fn do_tick(&mut self) -> Result<u32, Refusal>
        ensures { Makes B.Bank self.old (ticked result) self.new }
    {
        if let Some(task) = self.late_task() {
            return Err(Refusal::Late(task));
        }
        if self.clock >= 100_000_000 {
            return Err(Refusal::ClockEnds);
        }
        tick_all(self.tasks, &mut self.table);
        self.clock += 1;
        Ok(self.clock)
    }

    /// One tick, a millisecond, passes: answers the clock, in ticks since the controller was made.
    /// Refused with 10, and the lowest task that has held for all of its length, or with 11.
    pub fn tick(&mut self) -> Result<u32, Refusal>
        ensures makes { Makes B.Bank self.old (ticked result) self.new }
        ensures follows { FollowsRuns B.Bank self.old (ticked result) self.new }
    {
        self.do_tick()
    }
}
