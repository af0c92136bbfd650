ghost use Rattle.std.specs.Prelude.{◌≡◌};

use bank::request::Mode;

/// An active request of a reader-writer resource.
#[derive(Debug, Clone, Copy, PartialEq, Eq, Default)]
pub struct Entry {
    /// Whose it is.
    pub party: u8,
    /// Its mode.
    pub mode: Mode,
    /// Whether it holds; if not, it waits.
    pub holds: bool,
}

impl Entry {
    ghost use Rattle.readers_writers.specs.Lines.{is_writer, holder_of};

    // Whether its mode is W.
    pub(crate) fn is_writer(&self) -> bool
        ensures { result ≡ is_writer self.now }
    {
        self.mode == Mode::Write
    }

    // Whether it is of this party, and holds.
    pub(crate) fn is_held_by(&self, party: u8) -> bool
        ensures { result ≡ holder_of party self.now }
    {
        self.party == party && self.holds
    }
}
