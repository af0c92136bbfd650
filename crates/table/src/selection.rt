ghost use Rattle.std.specs.Prelude.{◌≡◌};
ghost use Rattle.table.specs.Rows.{selects};

use rules::task::State;

/// Which of the jobs are looked at. An enum and no closure, since the definitions of specs say what
/// each case selects.
#[derive(Clone, Copy, Debug, PartialEq, Eq)]
pub enum Selection {
    /// The jobs that are not finished.
    Unfinished,
    /// Those that are going or hold.
    Ready,
    /// Those whose request is not issued yet.
    HeldBack,
}

impl Selection {
    /// Whether a task in this state is among them.
    #[inline(always)]
    pub fn has(self, state: State) -> bool
        ensures { result ≡ selects self state }
    {
        match self {
            Selection::Unfinished => !matches!(state, State::Idle),
            Selection::Ready => matches!(state, State::Going | State::Holding(_)),
            Selection::HeldBack => matches!(state, State::HeldBack(_)),
        }
    }
}
