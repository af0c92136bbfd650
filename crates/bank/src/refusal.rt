ghost use Rattle.std.specs.Prelude.{◌≡◌};
ghost use Rattle.bank.specs.Questions.{number};

/// Why a bank refuses a call. Each case has one number, that of the question answered no.
#[derive(Debug, Clone, Copy, PartialEq, Eq)]
pub enum Refusal {
    /// 2: the resource does not exist.
    NoResource,
    /// 3: the resource does not know the mode.
    NoMode,
    /// 12: the party is not below 64.
    NoParty,
    /// 13: the party is active at the resource.
    AlreadyActive,
    /// 14: as many are active at the resource as there are seats.
    NoSeat,
    /// 15: the party does not hold at the resource.
    NotHolding,
}

impl Refusal {
    /// The number of the question answered no.
    pub fn number(self) -> u32
        ensures { result ≡ number self }
    {
        // the numbers are the format: they are written out here and follow no order of the cases
        match self {
            Refusal::NoResource => 2,
            Refusal::NoMode => 3,
            Refusal::NoParty => 12,
            Refusal::AlreadyActive => 13,
            Refusal::NoSeat => 14,
            Refusal::NotHolding => 15,
        }
    }
}
