ghost use Rattle.std.specs.Prelude.{◌≡◌, List, ℕ};
ghost use Rattle.dry_run.specs.Fed.{Fed, phase_of, Tells};

use crate::run::{DryRun, Phase, Progress};

impl DryRun {
    // The phase that the progress is in.
    fn reads_next(&self) -> Phase
        ensures { result ≡ phase_of self.now }
    {
        match &self.progress {
            Progress::Plan { .. } => Phase::Plan,
            Progress::Events { .. } => Phase::Events,
            Progress::Over => Phase::Over,
        }
    }

    /// What is read next. As long as it is the plan, enough has not come for that: no empty line,
    /// and fewer than 16,384 bytes. Where it is the event lines, the plan is accepted, and where it
    /// is nothing more, what was printed so far is all that is printed, both whatever comes behind.
    pub fn phase(&self) -> Phase
        ensures value { result ≡ phase_of self.now }
        ensures tells { (input out : List ℕ) → Fed self.now input out → Tells result input out }
    {
        self.reads_next()
    }
}
