ghost use Rattle.std.specs.Prelude.{◌≡◌};
ghost use Rattle.controller.specs.Checks.{Moves};
ghost use Rattle.rules.specs.declared.task.State.TheVariants.{HeldBack};
ghost use Rattle.controller.specs.Calls.{FollowsRuns, Makes};
ghost use Rattle.controller.specs.Of.{setup_of, snapshot_of, Unchanged};
ghost use Rattle.controller.specs.Issues.{Asks, AskChanges};
ghost use Rattle.rules.specs.Answers.{asked};
ghost use Rattle.rules.specs.Questions.{questions};

use crate::controller::Controller;
use crate::state::{asked_state, in_state, issued};
use bank::meaning::Bank;
use bank::request::Mode;
use rules::answer::Asked;
use rules::call::Call;
use rules::refusal::Refusal;
use rules::task::State;

// A request is issued where the job is among the first, and else held back.
fn issue<B: Bank>(
    bank: &mut B,
    first: bool,
    task: u32,
    resource: u32,
    mode: Mode,
) -> Result<Asked, Refusal>
    ensures told { B.Bank.told bank.new ≡ B.Bank.told bank.old }
    ensures asks { Asks (B.Bank.told bank.old) first task resource mode result (B.Bank.active bank.old) (B.Bank.active bank.new) }
    ensures changes { AskChanges B.Bank.entered task resource mode result bank.old bank.new }
    ensures keeps { Unchanged result bank.old bank.new }
{
    if !first {
        return Ok(Asked::Back);
    }
    Ok(issued(bank.enter(resource, task, mode)?))
}

impl<B: Bank> Controller<B> {
    // Whether the questions of an ask are answered yes, and then the task is to be held back.
    fn check_ask(&self, task: u32, resource: u32, mode: Mode) -> Result<State, Refusal>
        ensures { Moves (questions (setup_of B.Bank self.now) (snapshot_of B.Bank self.now) (Call.Ask task resource mode))
            (HeldBack (record { resource = resource; mode = mode })) result }
    {
        let t = task as usize;
        if t >= self.tasks {
            return Err(Refusal::NoTask);
        }
        self.turns(resource, mode)?;
        self.plan
            .length(t, resource as usize)
            .ok_or(Refusal::NoLength)?;
        let call = Call::Ask {
            task,
            resource,
            mode,
        };
        self.check(task, call)
    }

    fn do_ask(&mut self, task: u32, resource: u32, mode: Mode) -> Result<Asked, Refusal>
        ensures { Makes B.Bank self.old (asked task resource mode result) self.new }
    {
        let back = self.check_ask(task, resource, mode)?;
        let t = task as usize;
        let first = self.jobs().is_first(t);
        let answer = issue(&mut self.bank, first, task, resource, mode)?;
        let state = asked_state(answer, back);
        let record = in_state(self.table.get(t), state);
        self.table.store(t, record);
        Ok(answer)
    }

    /// The running job of a task asks for a resource. Its request is issued, and holds or waits,
    /// if the job is among the first of its cluster; else it is held back until a finish brings
    /// the job there. Refused with 1, 2, 3, 4, 7 or 8.
    pub fn ask(&mut self, task: u32, resource: u32, mode: Mode) -> Result<Asked, Refusal>
        ensures makes { Makes B.Bank self.old (asked task resource mode result) self.new }
        ensures follows { FollowsRuns B.Bank self.old (asked task resource mode result) self.new }
    {
        self.do_ask(task, resource, mode)
    }
}
