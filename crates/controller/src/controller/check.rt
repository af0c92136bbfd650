ghost use Rattle.std.specs.Prelude.{◌≡◌, true};
ghost use Rattle.plan.specs.Of.{plan_contents};
ghost use Rattle.rules.specs.Jobs.{jobs_in, runs};
ghost use Rattle.rules.specs.declared.task.State.{State as Status};
ghost use Rattle.controller.specs.Checks.{Moves, state_questions, call_questions, next_state};
ghost use Rattle.controller.specs.Of.{setup_of, snapshot_of};

use crate::call::moved;
use crate::controller::Controller;
use bank::meaning::Bank;
use rules::call::Call;
use rules::refusal::Refusal;
use rules::task::State;

impl<B: Bank> Controller<B> {
    // Whether the job of a task runs, for a call that asks for it.
    fn running(&self, t: usize, call: Call) -> bool
        ensures so { result ≡ true → runs (plan_contents self.now.plan) self.now.tasks
            (jobs_in (snapshot_of B.Bank self.now)) t ≡ true }
        ensures same { (state : Status) → state_questions call result state
            ≡ state_questions call (runs (plan_contents self.now.plan) self.now.tasks
            (jobs_in (snapshot_of B.Bank self.now)) t) state }
    {
        match call {
            Call::Ask { .. } | Call::Finish(_) => self.jobs().runs(t),
            Call::Release(_) | Call::Give(_) | Call::Tick => false,
        }
    }

    // Whether the task exists, and where the call moves it from its state.
    pub(crate) fn check(&self, task: u32, call: Call) -> Result<State, Refusal>
        ensures { Moves (call_questions (setup_of B.Bank self.now) (snapshot_of B.Bank self.now) call task)
            (next_state call ((snapshot_of B.Bank self.now).tasks task).state) result }
    {
        let t = task as usize;
        if t >= self.tasks {
            return Err(Refusal::NoTask);
        }
        let runs = self.running(t, call);
        moved(call, self.table.get(t).state, runs)
    }
}
