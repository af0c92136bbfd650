ghost use Rattle.bank.specs.declared.size.TheConstants.{PARTIES};
ghost use Rattle.byte_vec.specs.Filled.{Filled};

use bank::request::{Mode, Request, Standing};
use bank::size::PARTIES;

/// A resource with so many slots, and its parties in order of entry. The places behind them are 0.
#[derive(Clone, Copy, Debug, PartialEq, Eq)]
pub struct Line {
    pub(crate) slots: u8,
    pub(crate) parties: [u8; PARTIES],
    pub(crate) size: usize,
    ghost filled: { Filled PARTIES parties size },
}

impl Line {
    ghost use Rattle.std.specs.Prelude.{◌≡◌, ◌<◌, ◌≤◌, ◌==◌, [], ◌∷◌, ◌++◌, length, position, is_some, IfSome};
    ghost use Rattle.std.specs.List.{remove, slice_get};
    ghost use Rattle.bank.specs.Lists.{is_active, is_holder, request_of};
    ghost use Rattle.slots.specs.Lines.{request_at, requests};
    ghost use Rattle.slots.specs.Rows.{row, place};

    // The most holders.
    pub(crate) fn holders(&self) -> u32
        ensures value { result ≡ self.now.slots }
        ensures small { result < 256 }
    {
        self.slots.into()
    }

    // How many are active.
    #[tactic(auto, using(crate::proofs::Requests::length_requests, byte_vec::specs::Filled::length_of_filled))]
    pub(crate) fn size(&self) -> u32
        ensures parties { result ≡ length (row self.now) }
        ensures requests { result ≡ length (requests self.now.slots (row self.now)) }
        ensures few { result < 65 }
    {
        self.size as u32
    }

    // The first place of a party, if it is active.
    pub(crate) fn find(&self, party: u8) -> Option<usize>
        ensures place { result ≡ position (λ q. q == party) (row self.now) }
        ensures here { IfSome result (λ i. i < length (row self.now)) }
        ensures within { IfSome result (λ place. place < PARTIES) }
    {
        self.parties[..self.size].iter().position(|q| *q == party)
    }

    // Whether a party is active.
    pub(crate) fn is_active(&self, party: u8) -> bool
        ensures { result ≡ is_active party (requests self.now.slots (row self.now)) }
    {
        self.find(party).is_some()
    }

    // The place of a party that holds, if it does.
    #[tactic(auto, using(crate::proofs::Places::found, crate::proofs::Holders::none_holds, crate::proofs::Holders::some_holds))]
    pub(crate) fn holder(&self, party: u8) -> Option<usize>
        ensures holds { is_some result ≡ is_holder party (requests self.now.slots (row self.now)) }
        ensures place { IfSome result (λ i. i ≡ place party (row self.now)) }
        ensures here { IfSome result (λ i. (i < length (row self.now)) × (i < self.now.slots)) }
    {
        let place = self.find(party)?;
        (place < self.slots as usize).then_some(place)
    }

    // The request of a party at a place.
    fn request(&self, place: usize, party: u8) -> Request
        requires { (1 ≤ self.now.slots) × (place ≤ PARTIES) }
        ensures { result ≡ request_at self.now.slots place party }
    {
        let k = self.holders();
        let place = place as u32;
        let standing = if place < k {
            Standing::Holds
        } else {
            Standing::Waits {
                turns: (place - k) / k + 1,
                departures: (place - k) % k + 1,
            }
        };
        Request {
            party: party.into(),
            mode: Mode::Write,
            standing,
        }
    }

    // The request at a place of the list, if there is one.
    pub(crate) fn request_at(&self, place: usize) -> Option<Request>
        requires { 1 ≤ self.now.slots }
        ensures { result ≡ slice_get (requests self.now.slots (row self.now)) place }
    {
        let party = *self.parties[..self.size].get(place)?;
        Some(self.request(place, party))
    }

    // The request of a party, if it has one.
    #[tactic(auto, using(crate::proofs::Places::found, crate::proofs::Places::missing, crate::proofs::Requests::request_found, crate::proofs::Requests::request_none))]
    pub(crate) fn request_of(&self, party: u8) -> Option<Request>
        requires { 1 ≤ self.now.slots }
        ensures { result ≡ request_of party (requests self.now.slots (row self.now)) }
    {
        let place = self.find(party)?;
        Some(self.request(place, party))
    }

    // A party more at the end.
    pub(crate) fn push(&mut self, party: u8)
        requires { length (row self.old) < PARTIES }
        ensures slots { self.new.slots ≡ self.old.slots }
        ensures row { row self.new ≡ row self.old ++ (party ∷ []) }
    {
        self.parties[self.size] = party;
        self.size += 1;
    }

    // The party at a place is gone.
    pub(crate) fn remove(&mut self, place: usize)
        requires { place < length (row self.old) }
        ensures slots { self.new.slots ≡ self.old.slots }
        ensures row { row self.new ≡ remove (row self.old) place }
    {
        self.parties.copy_within(place + 1..self.size, place);
        self.size -= 1;
        self.parties[self.size] = 0;
    }
}
