ghost use Rattle.claim.specs.Claims.{asked_of, AsksWithClaim, GivesWithClaim, FollowsWithClaim};
ghost use Rattle.controller.specs.Calls.{FollowsRuns};
ghost use Rattle.rules.specs.Answers.{asked};

use crate::claim::Claim;
use bank::meaning::Bank;
use bank::request::Mode;
use controller::controller::Controller;
use rules::answer::Asked;
use rules::refusal::Refusal;

/// The same call as the controller's `ask`, with a claim on what was asked for. Refused as `ask`
/// is; then there is no claim.
pub fn ask<B: Bank>(
    controller: &mut Controller<B>,
    task: u32,
    resource: u32,
    mode: Mode,
) -> Result<(Asked, Claim), Refusal>
    ensures makes { AsksWithClaim B.Bank controller.old task resource mode result controller.new }
    ensures follows { FollowsRuns B.Bank controller.old (asked task resource mode (asked_of result))
        controller.new }
{
    let answer = controller.ask(task, resource, mode)?;
    Ok((answer, Claim::of(task)))
}

// Spends a claim, or hands it back: what `give` does, to which that adds the law of runs, by a
// lemma.
fn give_back<B: Bank>(
    controller: &mut Controller<B>,
    claim: Claim,
) -> Result<Result<u32, Refusal>, (Claim, Refusal)>
    ensures { GivesWithClaim B.Bank controller.old claim result controller.new }
{
    let task = claim.task();
    if controller.is_suspended(task) {
        return Err((claim, Refusal::NotHolding));
    }
    claim.spend();
    Ok(controller.give(task))
}

/// The same call as the controller's `give` of the claim's task, and spends the claim: answers the
/// ticks for which the task held, or `give`'s refusal. Where the task waits or is held back nothing
/// changes, and the claim comes back with the refusal, whose number is 9.
pub fn give<B: Bank>(
    controller: &mut Controller<B>,
    claim: Claim,
) -> Result<Result<u32, Refusal>, (Claim, Refusal)>
    ensures makes { GivesWithClaim B.Bank controller.old claim result controller.new }
    ensures follows { FollowsWithClaim B.Bank controller.old claim result controller.new }
{
    give_back(controller, claim)
}
