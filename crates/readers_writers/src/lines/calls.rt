ghost use Rattle.std.specs.Prelude.{length};
ghost use Rattle.bank.specs.Meaning.{EntersBank, LeavesBank, ChangesBy};
ghost use Rattle.bank.specs.Questions.{TellsAt};
ghost use Rattle.readers_writers.specs.Meaning.{is_small, is_sound};
ghost use Rattle.readers_writers.specs.ReadersWriters.{told_of, active_of, Settled, EntersExactly, LeavesExactly};

use crate::lines::ReadersWriters;
use bank::meaning::Bank;
use bank::place::{check_party, index};
use bank::refusal::Refusal;
use bank::request::{Mode, Request};

impl Bank for ReadersWriters {
    ghost told = { told_of };

    ghost active = { active_of };

    ghost entered = { λ r p m result old new. ChangesBy (EntersExactly r p m) result old new };

    ghost left = { λ r p result old new. ChangesBy (λ done. LeavesExactly r p) result old new };

    ghost small = { is_small };

    ghost sound = { is_sound };

    fn resources(&self) -> u32 {
        self.count
    }

    fn seats(&self) -> u32 {
        self.seats
    }

    fn slots(&self, resource: u32) -> Result<u32, Refusal> {
        index(resource, self.count)?;
        Ok(1)
    }

    fn reads(&self, resource: u32) -> Result<bool, Refusal> {
        index(resource, self.count)?;
        Ok(true)
    }

    fn turn_limit(&self, resource: u32, mode: Mode) -> Result<u32, Refusal> {
        index(resource, self.count)?;
        match mode {
            Mode::Write => Ok(2 * self.seats - 2),
            Mode::Read => Ok((self.seats - 1).min(2)),
        }
    }

    #[tactic(auto, using(crate::proofs::Meaning::settles))]
    fn count(&self, resource: u32) -> Result<u32, Refusal>
        ensures tells { TellsAt (told_of self.now) resource (length (active_of self.now resource)) result }
        ensures settled { Settled self.now }
    {
        let at = index(resource, self.count)?;
        Ok(self.lines[at].active())
    }

    fn request_at(&self, resource: u32, place: u32) -> Result<Option<Request>, Refusal> {
        let at = index(resource, self.count)?;
        Ok(self.lines[at].request(place as usize))
    }

    #[inline(always)]
    fn request_of(&self, resource: u32, party: u32) -> Result<Option<Request>, Refusal> {
        let at = index(resource, self.count)?;
        check_party(party)?;
        Ok(self.lines[at].request_of(party as u8))
    }

    #[tactic(auto, using(crate::proofs::Meaning::enters_exactly, crate::proofs::Meaning::settles))]
    fn enter(&mut self, resource: u32, party: u32, mode: Mode) -> Result<bool, Refusal>
        ensures enters { EntersBank told_of active_of resource party mode result self.old self.new }
        ensures exact { ChangesBy (EntersExactly resource party mode) result self.old self.new }
        ensures settled { Settled self.new }
    {
        self.enter_line(resource, party, mode)
    }

    #[tactic(auto, using(crate::proofs::Meaning::leaves_exactly, crate::proofs::Meaning::settles))]
    fn leave(&mut self, resource: u32, party: u32) -> Result<(), Refusal>
        ensures leaves { LeavesBank told_of active_of resource party result self.old self.new }
        ensures exact { ChangesBy (λ done. LeavesExactly resource party) result self.old self.new }
        ensures settled { Settled self.new }
    {
        self.leave_line(resource, party)
    }
}
