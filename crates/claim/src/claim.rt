ghost use Rattle.std.specs.Prelude.{◌≡◌, ◌≤◌};

/// A claim on what a task asked for: the number of that task. It can only be given back.
// `Drop` asks for what no claim has, since the tasks of a plan are below 64. So it is the prover
// that refuses code that lets a claim go.
#[derive(Debug, PartialEq, Eq)]
pub struct Claim {
    task: u32,
}

impl Drop for Claim {
    // Runs for no claim: by the contract of `ask` each is for a task that exists.
    fn drop(self)
        requires { 64 ≤ self.task }
    {
        let Claim { task: _ } = self;
    }
}

impl Claim {
    // The claim of a task.
    pub(crate) fn of(task: u32) -> Claim
        ensures { result.task ≡ task }
    {
        Claim { task }
    }

    // The task that the claim is for.
    pub(crate) fn task(&self) -> u32
        ensures { result ≡ self.now.task }
    {
        self.task
    }

    // Spends the claim.
    pub(crate) fn spend(self) -> u32
        ensures { result ≡ self.task }
    {
        let Claim { task } = self;
        task
    }
}
