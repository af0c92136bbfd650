ghost use Rattle.std.specs.Prelude.{◌≡◌};
ghost use Rattle.controller.specs.Calls.{FollowsRuns, Makes};
ghost use Rattle.rules.specs.Answers.{released};

use crate::controller::Controller;
use bank::meaning::Bank;
use rules::call::Call;
use rules::refusal::Refusal;
use rules::task::Task;

impl<B: Bank> Controller<B> {
    fn do_release(&mut self, task: u32) -> Result<u32, Refusal>
        ensures { Makes B.Bank self.old (released task result) self.new }
    {
        let state = self.check(task, Call::Release(task))?;
        let number = self.releases;
        if number >= 100_000_000 {
            return Err(Refusal::ManyReleases);
        }
        self.table.store(
            task as usize,
            Task {
                state,
                release: number,
                ..Task::IDLE
            },
        );
        self.releases = number + 1;
        Ok(number)
    }

    /// Begins a job of an idle task, and answers its release number: how many releases were
    /// accepted before. Refused with 1, 5 or 6.
    pub fn release(&mut self, task: u32) -> Result<u32, Refusal>
        ensures makes { Makes B.Bank self.old (released task result) self.new }
        ensures follows { FollowsRuns B.Bank self.old (released task result) self.new }
    {
        self.do_release(task)
    }
}
