ghost use Rattle.std.specs.Prelude.{◌≡◌, ◌<◌};
ghost use Rattle.controller.specs.Calls.{FollowsRuns, Makes};
ghost use Rattle.controller.specs.Of.{setup_of, snapshot_of};
ghost use Rattle.rules.specs.Answers.{finished};
ghost use Rattle.rules.specs.Jobs.{next_issued};

use crate::controller::Controller;
use crate::state::{in_state, issued_state, wanted_of};
use bank::meaning::Bank;
use rules::answer::{Finished, Issued};
use rules::call::Call;
use rules::refusal::Refusal;
use rules::task::Task;

impl<B: Bank> Controller<B> {
    // The task whose request is issued when the job of a task ends.
    fn next_after(&self, t: usize) -> Option<usize>
        requires { t < self.now.tasks }
        ensures { result ≡ next_issued (setup_of B.Bank self.now) (snapshot_of B.Bank self.now) t }
    {
        self.jobs().next_after(t)
    }

    fn do_finish(&mut self, task: u32) -> Result<Finished, Refusal>
        ensures { Makes B.Bank self.old (finished task result) self.new }
    {
        let state = self.check(task, Call::Finish(task))?;
        let t = task as usize;
        let blocked = self.table.get(t).blocked;
        let ended = Task {
            state,
            ..Task::IDLE
        };
        let Some(next) = self.next_after(t) else {
            self.table.store(t, ended);
            return Ok(Finished {
                blocked,
                issued: None,
            });
        };
        let job = self.table.get(next);
        let wanted = wanted_of(job.state);
        let holds = self.bank.enter(wanted.resource, next as u32, wanted.mode)?;
        self.table.store(t, ended);
        self.table
            .store(next, in_state(job, issued_state(holds, wanted)));
        Ok(Finished {
            blocked,
            issued: Some(Issued {
                task: next as u32,
                holds,
            }),
        })
    }

    /// The running job of a task ends. Answers the ticks on which it was blocked, and the request
    /// that was held back and is issued thereby, if there is one. Refused with 1, 7 or 8.
    pub fn finish(&mut self, task: u32) -> Result<Finished, Refusal>
        ensures makes { Makes B.Bank self.old (finished task result) self.new }
        ensures follows { FollowsRuns B.Bank self.old (finished task result) self.new }
    {
        self.do_finish(task)
    }
}
