ghost use Rattle.pair.specs.Pairs.{pair_told, pair_active};
ghost use Rattle.pair.specs.Halves.{IsHalf};
ghost use Rattle.pair.specs.Known.{pair_entered, pair_left};
ghost use Rattle.pair.specs.Laws.{pair_small, pair_sound};

use crate::within::enter_within;
use bank::meaning::Bank;
use bank::refusal::Refusal;
use bank::request::{Mode, Request};
use bank::size::RESOURCES;

/// Two banks as one: the first's resources, followed by the second's.
#[derive(Debug, PartialEq, Eq, Drop)]
pub struct Pair<A: Bank, B: Bank> {
    /// The bank whose resources come first, with its own numbers.
    pub first: A,
    /// The bank whose resources follow.
    pub second: B,
}

// A resource of a pair: the bank that it is of, and its number there.
#[derive(Clone, Copy, Debug, PartialEq, Eq)]
enum Half {
    First(u32),
    Second(u32),
}

impl<A: Bank, B: Bank> Pair<A, B> {
    // The bank that a resource is of.
    fn half(&self, resource: u32) -> Result<Half, Refusal>
        ensures { IsHalf (A.Bank.told self.now.first) (B.Bank.told self.now.second) resource result }
    {
        let n = self.first.resources();
        if resource >= self.resources() {
            Err(Refusal::NoResource)
        } else if resource < n {
            Ok(Half::First(resource))
        } else {
            Ok(Half::Second(resource - n))
        }
    }
}

impl<A: Bank, B: Bank> Bank for Pair<A, B> {
    ghost told = { λ s. pair_told (A.Bank.told s.first) (B.Bank.told s.second) };

    ghost active = { λ s. pair_active (A.Bank.told s.first) (A.Bank.active s.first) (B.Bank.active s.second) };

    ghost entered = { λ r p m result old new. pair_entered A.Bank B.Bank r p m result old new };

    ghost left = { λ r p result old new. pair_left A.Bank B.Bank r p result old new };

    ghost small = { λ b. pair_small (A.Bank.told b.first) (B.Bank.told b.second) (A.Bank.small b.first) (B.Bank.small b.second) };

    ghost sound = { λ b r lt. pair_sound (A.Bank.told b.first) (B.Bank.told b.second) (A.Bank.active b.first) (B.Bank.active b.second) (A.Bank.sound b.first) (B.Bank.sound b.second) r lt };

    fn resources(&self) -> u32 {
        (self.first.resources() + self.second.resources()).min(RESOURCES as u32)
    }

    fn seats(&self) -> u32 {
        self.first.seats().min(self.second.seats())
    }

    fn slots(&self, resource: u32) -> Result<u32, Refusal> {
        match self.half(resource)? {
            Half::First(there) => self.first.slots(there),
            Half::Second(there) => self.second.slots(there),
        }
    }

    fn reads(&self, resource: u32) -> Result<bool, Refusal> {
        match self.half(resource)? {
            Half::First(there) => self.first.reads(there),
            Half::Second(there) => self.second.reads(there),
        }
    }

    fn turn_limit(&self, resource: u32, mode: Mode) -> Result<u32, Refusal> {
        match self.half(resource)? {
            Half::First(there) => self.first.turn_limit(there, mode),
            Half::Second(there) => self.second.turn_limit(there, mode),
        }
    }

    fn count(&self, resource: u32) -> Result<u32, Refusal> {
        match self.half(resource)? {
            Half::First(there) => self.first.count(there),
            Half::Second(there) => self.second.count(there),
        }
    }

    fn request_at(&self, resource: u32, place: u32) -> Result<Option<Request>, Refusal> {
        match self.half(resource)? {
            Half::First(there) => self.first.request_at(there, place),
            Half::Second(there) => self.second.request_at(there, place),
        }
    }

    fn request_of(&self, resource: u32, party: u32) -> Result<Option<Request>, Refusal> {
        match self.half(resource)? {
            Half::First(there) => self.first.request_of(there, party),
            Half::Second(there) => self.second.request_of(there, party),
        }
    }

    fn enter(&mut self, resource: u32, party: u32, mode: Mode) -> Result<bool, Refusal> {
        let seats = self.seats();
        match self.half(resource)? {
            Half::First(there) => enter_within(&mut self.first, seats, there, party, mode),
            Half::Second(there) => enter_within(&mut self.second, seats, there, party, mode),
        }
    }

    fn leave(&mut self, resource: u32, party: u32) -> Result<(), Refusal> {
        match self.half(resource)? {
            Half::First(there) => self.first.leave(there, party),
            Half::Second(there) => self.second.leave(there, party),
        }
    }
}
