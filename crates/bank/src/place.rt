ghost use Rattle.bank.specs.Questions.{IsIndex, IsParty};

use crate::refusal::Refusal;
use crate::size::PARTIES;

/// The place of a resource among so many, if it exists.
pub fn index(resource: u32, count: u32) -> Result<usize, Refusal>
    ensures { IsIndex count resource result }
{
    if resource < count {
        Ok(resource as usize)
    } else {
        Err(Refusal::NoResource)
    }
}

/// Whether there is such a party.
pub fn check_party(party: u32) -> Result<(), Refusal>
    ensures { IsParty party result }
{
    if party >= PARTIES as u32 {
        return Err(Refusal::NoParty);
    }
    Ok(())
}
