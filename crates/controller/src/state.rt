ghost use Rattle.std.specs.Prelude.{◌≡◌, true, if◌then◌else◌};
ghost use Rattle.controller.specs.Ticks.{CanTick};
ghost use Rattle.rules.specs.Moves.{ticked_task};
ghost use Rattle.rules.specs.States.{asked_state, in_state, is_held_back, issued_state, wanted_of};

use bank::request::Mode;
use rules::answer::Asked;
use rules::task::{State, Task, Wanted};

// The answer of an ask whose request was issued.
pub(crate) fn issued(holds: bool) -> Asked
    ensures { result ≡ (if holds then Asked.Hold else Asked.Wait) }
{
    if holds { Asked::Hold } else { Asked::Wait }
}

// Where a held-back task moves when its request is issued.
pub(crate) fn issued_state(holds: bool, wanted: Wanted) -> State
    ensures { result ≡ issued_state holds wanted }
{
    if holds {
        State::Holding(wanted)
    } else {
        State::Waiting(wanted)
    }
}

// The state after an ask: held back, and on from there where the request was issued.
pub(crate) fn asked_state(answer: Asked, back: State) -> State
    requires { is_held_back back ≡ true }
    ensures { result ≡ asked_state answer (wanted_of back) }
{
    match answer {
        Asked::Hold => issued_state(true, wanted_of(back)),
        Asked::Wait => issued_state(false, wanted_of(back)),
        Asked::Back => back,
    }
}

// The same job in another state, with 0 ticks used.
pub(crate) fn in_state(job: Task, state: State) -> Task
    ensures { result ≡ in_state state job }
{
    Task {
        state,
        used: 0,
        ..job
    }
}

// The record of a task one tick on: a holder has used one tick more, and a job that waits was
// blocked on one more.
pub(crate) fn ticked(job: Task) -> Task
    requires { CanTick job }
    ensures { result ≡ ticked_task job }
{
    match job.state {
        State::Holding(_) => Task {
            used: job.used + 1,
            ..job
        },
        State::Waiting(_) => Task {
            blocked: job.blocked + 1,
            ..job
        },
        State::Idle | State::Going | State::HeldBack(_) => job,
    }
}

// What a task in this state has asked for and not given back; W at resource 0 where it has not.
pub(crate) fn wanted_of(state: State) -> Wanted
    ensures { result ≡ wanted_of state }
{
    match state {
        State::HeldBack(wanted) | State::Waiting(wanted) | State::Holding(wanted) => wanted,
        State::Idle | State::Going => Wanted {
            resource: 0,
            mode: Mode::Write,
        },
    }
}
