ghost use Rattle.std.specs.Prelude.{◌≡◌};
ghost use Rattle.controller.specs.Limits.{TellsLimit, TellsTurns};
ghost use Rattle.controller.specs.Of.{setup_of, snapshot_of};
ghost use Rattle.plan.specs.Of.{plan_contents};
ghost use Rattle.rules.specs.Histories.{History, after, is_suspended_after};
ghost use Rattle.rules.specs.Holders.{IsNearestEnd, nearest_end};
ghost use Rattle.rules.specs.Runs.{Runs};
ghost use Rattle.rules.specs.States.{is_suspended};

use crate::controller::Controller;
use bank::limit::ticks_of_turns;
use bank::meaning::Bank;
use bank::request::Mode;
use rules::refusal::Refusal;
use rules::task::State;

impl<B: Bank> Controller<B> {
    // The turn limit of a mode at a resource.
    pub(crate) fn turns(&self, resource: u32, mode: Mode) -> Result<u32, Refusal>
        ensures { TellsTurns (setup_of B.Bank self.now) resource mode result }
    {
        if resource >= self.resources || resource >= self.bank.resources() {
            return Err(Refusal::NoResource);
        }
        self.bank
            .turn_limit(resource, mode)
            .map_err(|_| Refusal::NoMode)
    }

    /// The most ticks for which a request in this mode waits at a resource, once it is issued.
    /// Refused with 2 or 3.
    pub fn wait_limit(&self, resource: u32, mode: Mode) -> Result<u64, Refusal>
        ensures { TellsLimit (setup_of B.Bank self.now) resource mode result }
    {
        let turns = self.turns(resource, mode)?;
        let longest = self.plan.longest(resource as usize).unwrap();
        Ok(ticks_of_turns(turns, longest))
    }

    // The holder nearest its end, by the records.
    fn nearest(&self) -> Option<(u32, u32)>
        ensures { result ≡ nearest_end (setup_of B.Bank self.now) (snapshot_of B.Bank self.now) }
    {
        self.jobs().nearest_end()
    }

    /// The task of the holder that has the fewest ticks left, of equal ones the lowest, and its
    /// ticks left: how many accepted ticks it may still hold. Nothing where nobody holds.
    pub fn nearest_end(&self) -> Option<(u32, u32)>
        ensures value { result ≡ nearest_end (setup_of B.Bank self.now)
            (snapshot_of B.Bank self.now) }
        ensures nearest { IsNearestEnd (plan_contents self.now.plan)
            (snapshot_of B.Bank self.now).tasks result }
        ensures run { (h : History)
            → Runs (setup_of B.Bank self.now) (snapshot_of B.Bank self.now) h
            → IsNearestEnd (plan_contents self.now.plan) (after (setup_of B.Bank self.now) h).tasks
            result }
    {
        self.nearest()
    }

    // Whether a task waits or is held back, by its record.
    fn suspends(&self, task: u32) -> bool
        ensures { result ≡ is_suspended ((snapshot_of B.Bank self.now).tasks task).state }
    {
        let t = task as usize;
        t < self.tasks
            && matches!(
                self.table.get(t).state,
                State::HeldBack(_) | State::Waiting(_)
            )
    }

    /// Whether a task waits or is held back: it has asked, and can neither work on nor give. A
    /// task that does not exist is not.
    pub fn is_suspended(&self, task: u32) -> bool
        ensures value { result ≡ is_suspended ((snapshot_of B.Bank self.now).tasks task).state }
        ensures run { (h : History)
            → Runs (setup_of B.Bank self.now) (snapshot_of B.Bank self.now) h
            → result ≡ is_suspended_after task h }
    {
        self.suspends(task)
    }
}
