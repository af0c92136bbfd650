ghost use Rattle.std.specs.Prelude.{length};
ghost use Rattle.bank.specs.Meaning.{EntersBank, LeavesBank, ChangesBy};
ghost use Rattle.bank.specs.Questions.{TellsAt};
ghost use Rattle.slots.specs.Slots.{told_of, active_of, Full, EntersLast, LeavesPlace};
ghost use Rattle.slots.specs.Meaning.{is_small, is_sound};

use crate::slots::Slots;
use bank::meaning::Bank;
use bank::place::{check_party, index};
use bank::refusal::Refusal;
use bank::request::{Mode, Request};

impl Bank for Slots {
    ghost told = { λ s. told_of s };

    ghost active = { λ s r. active_of s r };

    ghost entered = { λ r p m result old new. ChangesBy (EntersLast r p) result old new };

    ghost left = { λ r p result old new. ChangesBy (λ done. LeavesPlace r p) result old new };

    ghost small = { is_small };

    ghost sound = { is_sound };

    fn resources(&self) -> u32 {
        self.count
    }

    fn seats(&self) -> u32 {
        self.seats
    }

    fn slots(&self, resource: u32) -> Result<u32, Refusal> {
        let at = index(resource, self.count)?;
        Ok(self.lines[at].holders())
    }

    fn reads(&self, resource: u32) -> Result<bool, Refusal> {
        index(resource, self.count)?;
        Ok(false)
    }

    fn turn_limit(&self, resource: u32, mode: Mode) -> Result<u32, Refusal> {
        let at = index(resource, self.count)?;
        match mode {
            Mode::Write => {
                let k = self.lines[at].holders();
                Ok((self.seats + k - 1) / k - 1)
            }
            Mode::Read => Err(Refusal::NoMode),
        }
    }

    #[tactic(auto, using(crate::proofs::Meaning::is_full))]
    fn count(&self, resource: u32) -> Result<u32, Refusal>
        ensures tells { TellsAt (told_of self.now) resource (length (active_of self.now resource)) result }
        ensures full { Full self.now }
    {
        let at = index(resource, self.count)?;
        Ok(self.lines[at].size())
    }

    fn request_at(&self, resource: u32, place: u32) -> Result<Option<Request>, Refusal> {
        let at = index(resource, self.count)?;
        Ok(self.lines[at].request_at(place as usize))
    }

    fn request_of(&self, resource: u32, party: u32) -> Result<Option<Request>, Refusal> {
        let at = index(resource, self.count)?;
        check_party(party)?;
        Ok(self.lines[at].request_of(party as u8))
    }

    #[tactic(auto, using(crate::proofs::Meaning::enters_last, crate::proofs::Meaning::is_full))]
    fn enter(&mut self, resource: u32, party: u32, mode: Mode) -> Result<bool, Refusal>
        ensures enters { EntersBank told_of active_of resource party mode result self.old self.new }
        ensures exact { ChangesBy (EntersLast resource party) result self.old self.new }
        ensures full { Full self.new }
    {
        self.take_in(resource, party, mode)
    }

    #[tactic(auto, using(crate::proofs::Meaning::leaves_place, crate::proofs::Meaning::is_full))]
    fn leave(&mut self, resource: u32, party: u32) -> Result<(), Refusal>
        ensures leaves { LeavesBank told_of active_of resource party result self.old self.new }
        ensures exact { ChangesBy (λ done. LeavesPlace resource party) result self.old self.new }
        ensures full { Full self.new }
    {
        self.let_out(resource, party)
    }
}
