ghost use Rattle.std.specs.Prelude.{◌≡◌, ◌+◌, ◌<◌, ◌≤◌, [], ◌∷◌, ◌++◌, length, decimal};

use itoa::write_digits;
use std::marker::Model;

// The end of a line. It grows to the front, since a number's digits come from the last to the
// first. Not compared: the places in front of the start are of no account, and a derived comparison
// would read them.
#[derive(Drop)]
pub(crate) struct Ending {
    places: [u8; 40],
    start: usize,
}

impl Model for Ending {
    ghost use Rattle.std.specs.Prelude.{ℕ, ◌≤◌, List, drop};

    ghost Value = { List ℕ };

    ghost view = { λ e. drop e.start e.places };

    ghost invariant = { λ e. e.start ≤ 40 };
}

impl Ending {
    // The newline.
    #[tactic(auto, using(crate::proofs::Fronts::put_front, std::proofs::lemmas::List::drop_all))]
    pub(crate) fn new() -> Ending
        ensures { result ≡ 10 ∷ [] }
    {
        let mut places = [0; 40];
        places[39] = b'\n';
        Ending { places, start: 39 }
    }

    // The bytes.
    pub(crate) fn as_slice(&self) -> &[u8]
        ensures value { result.now ≡ self.now }
        ensures few { length result.now ≤ 40 }
    {
        &self.places[self.start..]
    }

    // A byte in front.
    #[tactic(auto, using(crate::proofs::Fronts::put_front, std::proofs::lemmas::Grind::common_steps))]
    pub(crate) fn push_front(&mut self, byte: u8)
        requires { length self.old < 40 }
        ensures { self.new ≡ byte ∷ self.old }
    {
        self.start -= 1;
        self.places[self.start] = byte;
    }

    // A number in front.
    #[tactic(auto, using(crate::proofs::Sizes::number_size, std::proofs::lemmas::Grind::common_steps))]
    pub(crate) fn number(&mut self, n: u32)
        requires { length self.old + 10 ≤ 40 }
        ensures text { self.new ≡ decimal n ++ self.old }
        ensures few { length (decimal n) ≤ 10 }
    {
        self.start = write_digits(n as u64, &mut self.places, self.start);
    }
}
