ghost use Rattle.std.specs.Prelude.{◌≡◌, true};
ghost use Rattle.controller.specs.Checks.{Moves, state_questions, next_state};
ghost use Rattle.rules.specs.States.{is_ready};

use rules::call::Call;
use rules::refusal::Refusal;
use rules::task::{State, Wanted};

// Where a call moves its task, or which question on the task's own state is answered no. One match
// on the call and the state, so that each call has an answer in each state. An ask is held back
// here, and goes on from there when its request is issued; a tick leaves every state.
pub(crate) fn moved(call: Call, state: State, runs: bool) -> Result<State, Refusal>
    requires { runs ≡ true → is_ready state ≡ true }
    ensures { Moves (state_questions call runs state) (next_state call state) result }
{
    match (call, state) {
        (Call::Release(_), State::Idle) => Ok(State::Going),
        (
            Call::Release(_),
            State::Going | State::HeldBack(_) | State::Waiting(_) | State::Holding(_),
        ) => Err(Refusal::NotIdle),
        (Call::Ask { resource, mode, .. }, State::Going) => {
            if runs {
                Ok(State::HeldBack(Wanted { resource, mode }))
            } else {
                Err(Refusal::NotRunning)
            }
        }
        (Call::Finish(_), State::Going) => {
            if runs {
                Ok(State::Idle)
            } else {
                Err(Refusal::NotRunning)
            }
        }
        (Call::Ask { .. } | Call::Finish(_), State::Holding(_)) => {
            if runs {
                Err(Refusal::StillHolding)
            } else {
                Err(Refusal::NotRunning)
            }
        }
        (
            Call::Ask { .. } | Call::Finish(_),
            State::Idle | State::HeldBack(_) | State::Waiting(_),
        ) => Err(Refusal::NotRunning),
        (Call::Give(_), State::Holding(_)) => Ok(State::Going),
        (Call::Give(_), State::Idle | State::Going | State::HeldBack(_) | State::Waiting(_)) => Err(
            Refusal::NotHolding,
        ),
        (
            Call::Tick,
            State::Idle | State::Going | State::HeldBack(_) | State::Waiting(_) | State::Holding(_),
        ) => Ok(state),
    }
}
