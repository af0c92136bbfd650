ghost use Rattle.std.specs.Prelude.{◌≤◌};
ghost use Rattle.bank.specs.Lists.{is_active};
ghost use Rattle.bank.specs.Questions.{Tells, party_questions};
ghost use Rattle.pair.specs.Pairs.{EntersWithin};

use bank::meaning::Bank;
use bank::refusal::Refusal;
use bank::request::Mode;

// Whether a party is active at a resource.
#[tactic(auto, using(crate::proofs::Requests::active_found))]
fn is_active<B: Bank>(bank: &B, resource: u32, party: u32) -> Result<bool, Refusal>
    ensures { Tells (party_questions (B.Bank.told bank.now) resource party) (is_active party (B.Bank.active bank.now resource)) result }
{
    Ok(bank.request_of(resource, party)?.is_some())
}

// Enters a bank as if it had fewer seats.
pub(crate) fn enter_within<B: Bank>(
    bank: &mut B,
    seats: u32,
    resource: u32,
    party: u32,
    mode: Mode,
) -> Result<bool, Refusal>
    requires { seats ≤ (B.Bank.told bank.old).seats }
    ensures { EntersWithin B.Bank seats resource party mode result bank.old bank.new }
{
    bank.turn_limit(resource, mode)?;
    if is_active(bank, resource, party)? {
        return Err(Refusal::AlreadyActive);
    }
    if bank.count(resource)? >= seats {
        return Err(Refusal::NoSeat);
    }
    bank.enter(resource, party, mode)
}
