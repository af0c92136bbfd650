ghost use Rattle.std.specs.Prelude.{◌≡◌};
ghost use Rattle.text.specs.Refusals.{number};

use byte_vec::byte_vec::Full;

/// Why a line or a text is refused, or the memory handed in for one. Each case has one number, that
/// of the question answered no.
#[derive(Clone, Copy, Debug, PartialEq, Eq)]
pub enum Refusal {
    /// 16: the line has none of the five forms.
    Form,
    /// 17: the line is out of order.
    Order,
    /// 18: a number is out of its limits or names what is not there.
    Limits,
    /// 19: the table is full.
    Full,
    /// 20: a cluster, a resource or a task is missing.
    Incomplete,
    /// 21: the line is no event.
    NotEvent,
    /// 22: no empty line ends the plan in time.
    NoEnd,
    /// 23: the text does not fit the memory handed in.
    Memory,
}

impl Refusal {
    /// The number of the question answered no.
    pub fn number(self) -> u32
        ensures { result ≡ number self }
    {
        // the numbers are the format: they are written out here and follow no order of the cases
        match self {
            Refusal::Form => 16,
            Refusal::Order => 17,
            Refusal::Limits => 18,
            Refusal::Full => 19,
            Refusal::Incomplete => 20,
            Refusal::NotEvent => 21,
            Refusal::NoEnd => 22,
            Refusal::Memory => 23,
        }
    }
}

/// No room in a list of bytes is no room for the text: both have the number 23.
impl From<Full> for Refusal {
    ghost use Rattle.byte_vec.specs.Bytes.{number as number_of_full};

    ghost from_gives = { λ full why. number why ≡ number_of_full full };

    fn from(_full: Full) -> Self {
        Self::Memory
    }
}
