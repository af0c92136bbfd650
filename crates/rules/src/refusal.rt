ghost use Rattle.std.specs.Prelude.{◌≡◌};
ghost use Rattle.rules.specs.Refusals.{number};
ghost use Rattle.rules.specs.declared.refusal.Refusal.TheVariants.{Bank};

use bank::refusal::Refusal as BankRefusal;

/// Why a controller refuses a call. Each case has one number, that of the question answered no.
#[derive(Clone, Copy, Debug, PartialEq, Eq)]
pub enum Refusal {
    /// 1: the task does not exist.
    NoTask,
    /// 2: the resource does not exist.
    NoResource,
    /// 3: the resource does not know the mode.
    NoMode,
    /// 4: no length is declared for the task at the resource.
    NoLength,
    /// 5: the task is not idle.
    NotIdle,
    /// 6: 100,000,000 releases were accepted.
    ManyReleases,
    /// 7: the task's job does not run.
    NotRunning,
    /// 8: the task holds.
    StillHolding,
    /// 9: the task does not hold.
    NotHolding,
    /// 10: this task, the lowest of such, has held for all of its declared length.
    Late(u32),
    /// 11: the clock stands at 100,000,000.
    ClockEnds,
    /// 24: the bank does not fit the plan.
    NoFit,
    /// The bank refused, with its own number. In no run does this happen.
    Bank(BankRefusal),
}

impl Refusal {
    /// The number of the question answered no.
    pub fn number(self) -> u32
        ensures { result ≡ number self }
    {
        // the numbers are the format: they are written out here and follow no order of the cases
        match self {
            Refusal::NoTask => 1,
            Refusal::NoResource => 2,
            Refusal::NoMode => 3,
            Refusal::NoLength => 4,
            Refusal::NotIdle => 5,
            Refusal::ManyReleases => 6,
            Refusal::NotRunning => 7,
            Refusal::StillHolding => 8,
            Refusal::NotHolding => 9,
            Refusal::Late(_) => 10,
            Refusal::ClockEnds => 11,
            Refusal::NoFit => 24,
            Refusal::Bank(why) => why.number(),
        }
    }
}

impl From<BankRefusal> for Refusal {
    ghost from_gives = { λ why refusal. refusal ≡ Bank why };

    fn from(why: BankRefusal) -> Refusal {
        Refusal::Bank(why)
    }
}
