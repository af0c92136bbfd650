ghost use Rattle.std.specs.Option.{unwrap_or};
ghost use Rattle.std.specs.Prelude.{◌≡◌, ◌<◌, ◌≤◌};
ghost use Rattle.controller.specs.Calls.{FollowsRuns, Makes};
ghost use Rattle.controller.specs.Issues.{LetsIn};
ghost use Rattle.rules.specs.Answers.{gave};
ghost use Rattle.rules.specs.Moves.{let_in};

use crate::controller::Controller;
use crate::state::{in_state, wanted_of};
use bank::meaning::Bank;
use rules::call::Call;
use rules::refusal::Refusal;
use rules::task::{State, Task};
use table::tasks::Tasks;

// The record of a task after a departure, where it changes: one that waited at the resource, and
// that the bank now lists as holding, holds.
fn let_in<B: Bank>(bank: &B, resource: u32, task: u32, job: Task) -> Option<Task>
    requires { (resource < (B.Bank.told bank.now).resources) × (task < 64) }
    ensures { unwrap_or result job ≡ let_in resource (B.Bank.active bank.now resource) task job }
{
    let State::Waiting(wanted) = job.state else {
        return None;
    };
    if wanted.resource != resource {
        return None;
    }
    match bank.request_of(resource, task) {
        Ok(Some(request)) if request.holds() => Some(in_state(job, State::Holding(wanted))),
        _ => None,
    }
}

// The records after a departure.
fn let_in_all<B: Bank>(bank: &B, resource: u32, tasks: usize, table: &mut Tasks)
    requires { (resource < (B.Bank.told bank.now).resources) × (tasks ≤ 64) }
    ensures { LetsIn tasks resource (B.Bank.active bank.now resource) table.old.records.rows table.new.records.rows }
{
    // by the number of a task, which is its place in the table; who waits has an issued request
    for t in 0..tasks.min(table.issued_end()) {
        if let Some(held) = let_in(bank, resource, t as u32, table.get(t)) {
            table.store(t, held);
        }
    }
}

impl<B: Bank> Controller<B> {
    fn do_give(&mut self, task: u32) -> Result<u32, Refusal>
        ensures { Makes B.Bank self.old (gave task result) self.new }
    {
        let state = self.check(task, Call::Give(task))?;
        let t = task as usize;
        let job = self.table.get(t);
        let wanted = wanted_of(job.state);
        self.bank.leave(wanted.resource, task)?;
        self.table.store(t, in_state(job, state));
        let_in_all(&self.bank, wanted.resource, self.tasks, &mut self.table);
        Ok(job.used)
    }

    /// The task gives back what it holds, and is answered the ticks for which it held. Each task
    /// that the bank then lets hold has held for 0 ticks. Refused with 1 or 9.
    pub fn give(&mut self, task: u32) -> Result<u32, Refusal>
        ensures makes { Makes B.Bank self.old (gave task result) self.new }
        ensures follows { FollowsRuns B.Bank self.old (gave task result) self.new }
    {
        self.do_give(task)
    }
}
