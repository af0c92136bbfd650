ghost use Rattle.std.specs.Prelude.{◌≡◌};

/// How a resource is asked for.
#[derive(Debug, Clone, Copy, PartialEq, Eq, Default)]
pub enum Mode {
    /// W: to be used alone, or beside other holders as far as the resource admits.
    #[default]
    Write,
    /// R: to be read beside other readers.
    Read,
}

/// Whether a request holds, or waits with so many turns and departures before it.
#[derive(Debug, Clone, Copy, PartialEq, Eq)]
pub enum Standing {
    /// It holds.
    Holds,
    /// It waits for so many turns, the present one included, and within that for so many holders to
    /// leave.
    Waits { turns: u32, departures: u32 },
}

/// An active request.
#[derive(Debug, Clone, Copy, PartialEq, Eq)]
pub struct Request {
    /// Whose it is, from 0 to 63.
    pub party: u32,
    /// How the resource is asked for.
    pub mode: Mode,
    /// Whether it holds or waits.
    pub standing: Standing,
}

impl Request {
    ghost use Rattle.bank.specs.Lists.{holds};

    /// Whether it holds.
    pub fn holds(&self) -> bool
        ensures { result ≡ holds self.now }
    {
        matches!(self.standing, Standing::Holds)
    }
}
