ghost use Rattle.bank.specs.Meaning.{ChangesBy};
ghost use Rattle.bank.specs.Questions.{refused_by};
ghost use Rattle.readers_writers.specs.ReadersWriters.{EnterAsked, LeaveAsked, EntersExactly, LeavesExactly};

use crate::lines::ReadersWriters;
use bank::place::{check_party, index};
use bank::refusal::Refusal;
use bank::request::Mode;

impl ReadersWriters {
    // Adds a request that may enter at the end of its line; tells whether it holds.
    pub(crate) fn enter_line(
        &mut self,
        resource: u32,
        party: u32,
        mode: Mode,
    ) -> Result<bool, Refusal>
        ensures asks { EnterAsked self.old resource party mode (refused_by result) }
        ensures exact { ChangesBy (EntersExactly resource party mode) result self.old self.new }
    {
        let at = index(resource, self.count)?;
        check_party(party)?;
        if self.lines[at].is_active(party as u8) {
            return Err(Refusal::AlreadyActive);
        }
        if self.lines[at].active() >= self.seats {
            return Err(Refusal::NoSeat);
        }
        // an element within a struct that has ghost fields is lent only through a loan of its array
        let lines = &mut self.lines;
        Ok(lines[at].enter(party as u8, mode))
    }

    // Removes a holder that may leave.
    #[tactic(auto, using(crate::proofs::Positions::holds_at))]
    pub(crate) fn leave_line(&mut self, resource: u32, party: u32) -> Result<(), Refusal>
        ensures asks { LeaveAsked self.old resource party (refused_by result) }
        ensures exact { ChangesBy (λ done. LeavesExactly resource party) result self.old self.new }
    {
        let at = index(resource, self.count)?;
        check_party(party)?;
        let Some(holder) = self.lines[at].holder(party as u8) else {
            return Err(Refusal::NotHolding);
        };
        // an element within a struct that has ghost fields is lent only through a loan of its array
        let lines = &mut self.lines;
        lines[at].leave(holder);
        Ok(())
    }
}
