ghost use Rattle.bank.specs.Meaning.{ChangesBy};
ghost use Rattle.bank.specs.Questions.{refused_by};
ghost use Rattle.slots.specs.Slots.{EnterAsked, LeaveAsked, EntersLast, LeavesPlace};

use crate::slots::Slots;
use bank::place::{check_party, index};
use bank::refusal::Refusal;
use bank::request::Mode;

impl Slots {
    // Puts a party that may enter at the end; tells whether it holds.
    pub(crate) fn take_in(&mut self, resource: u32, party: u32, mode: Mode) -> Result<bool, Refusal>
        ensures asks { EnterAsked self.old resource party mode (refused_by result) }
        ensures exact { ChangesBy (EntersLast resource party) result self.old self.new }
    {
        let at = index(resource, self.count)?;
        if mode == Mode::Read {
            return Err(Refusal::NoMode);
        }
        check_party(party)?;
        let line = self.lines[at];
        if line.is_active(party as u8) {
            return Err(Refusal::AlreadyActive);
        }
        if line.size() >= self.seats {
            return Err(Refusal::NoSeat);
        }
        // an element within a struct that has ghost fields is lent only through a loan of its array
        let lines = &mut self.lines;
        lines[at].push(party as u8);
        Ok(line.size() < line.holders())
    }

    // Removes a party that may leave.
    pub(crate) fn let_out(&mut self, resource: u32, party: u32) -> Result<(), Refusal>
        ensures asks { LeaveAsked self.old resource party (refused_by result) }
        ensures exact { ChangesBy (λ done. LeavesPlace resource party) result self.old self.new }
    {
        let at = index(resource, self.count)?;
        check_party(party)?;
        let Some(place) = self.lines[at].holder(party as u8) else {
            return Err(Refusal::NotHolding);
        };
        // an element within a struct that has ghost fields is lent only through a loan of its array
        let lines = &mut self.lines;
        lines[at].remove(place);
        Ok(())
    }
}
