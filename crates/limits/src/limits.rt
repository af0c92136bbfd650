ghost use Rattle.std.specs.Prelude.{◌≡◌, ◌+◌, ◌<◌, ◌≤◌, ◌^◌, ◌++◌, true, cond, length};
ghost use Rattle.std.specs.Prelude.{Some, None, IfSome, is_ok, IfOk};
ghost use Rattle.bank.specs.Questions.{knows};
ghost use Rattle.plan.specs.Of.{plan_contents};
ghost use Rattle.text.specs.Memory.{Writes};
ghost use Rattle.rules.specs.Limits.{wait_limit};
ghost use Rattle.limits.specs.declared.size.TheConstants.{LIMITS_BYTES, LINE_BYTES};
ghost use Rattle.limits.specs.Lines.{line_of, limits_text};

use crate::line::push_line;
use crate::size::LIMITS_BYTES;
use bank::limit::ticks_of_turns;
use bank::meaning::Bank;
use bank::request::Mode;
use byte_vec::byte_vec::ByteVec;
use plan::plan::Plan;
use text::memory::write_bytes;
use text::refusal::Refusal;

// The wait limit of a mode, if the resource knows the mode.
#[tactic(auto, using(crate::proofs::Longest::longest_or_zero))]
fn wait_limit<B: Bank>(plan: &Plan, bank: &B, resource: u32, mode: Mode) -> Option<u64>
    requires { resource < (B.Bank.told bank.now).resources }
    ensures few { IfSome result (λ n. n < 2 ^ 64) }
    ensures value { result ≡ cond (knows (B.Bank.told bank.now) resource mode)
        (Some (wait_limit (B.Bank.told bank.now) (plan_contents plan.now) resource mode)) None }
{
    let turns = bank.turn_limit(resource, mode).ok()?;
    // a bank may have a resource that the plan has not: no length is declared for it
    let longest = plan.longest(resource as usize).unwrap_or(0);
    Some(ticks_of_turns(turns, longest))
}

// The line of a resource, behind those before it.
#[tactic(auto, using(crate::proofs::Sizes::line_size))]
fn push_resource<B: Bank>(text: &mut ByteVec<LIMITS_BYTES>, plan: &Plan, bank: &B, resource: u32)
    requires { (resource < (B.Bank.told bank.now).resources) × (length text.old + LINE_BYTES ≤ LIMITS_BYTES) }
    ensures text { text.new ≡ text.old
        ++ line_of (B.Bank.told bank.now) (plan_contents plan.now) resource }
    ensures few { length text.new ≤ length text.old + LINE_BYTES }
{
    let write = wait_limit(plan, bank, resource, Mode::Write).unwrap();
    let read = wait_limit(plan, bank, resource, Mode::Read);
    push_line(text, resource, write, read).unwrap();
}

// The lines of all resources.
fn limits_of<B: Bank>(plan: &Plan, bank: &B) -> ByteVec<LIMITS_BYTES>
    ensures text { result ≡ limits_text (B.Bank.told bank.now) (plan_contents plan.now) }
    ensures few { length result ≤ LIMITS_BYTES }
{
    let mut text = ByteVec::new();
    for resource in 0..bank.resources() {
        push_resource(&mut text, plan, bank, resource);
    }
    text
}

/// Writes the wait limits of each resource of a bank in ticks, by the lengths of a plan, at the
/// start of memory, and answers the size in bytes. 1,040 bytes are always enough; a text that does
/// not fit is refused by 23.
pub fn write_limits<B: Bank>(plan: &Plan, bank: &B, out: &mut [u8]) -> Result<usize, Refusal>
    ensures fits { LIMITS_BYTES ≤ length out.old → is_ok result ≡ true }
    ensures few { IfOk result (λ n. n ≤ LIMITS_BYTES) }
    ensures writes { Writes out.old 0
        (limits_text (B.Bank.told bank.now) (plan_contents plan.now)) result out.new }
{
    write_bytes(out, 0, limits_of(plan, bank).as_slice())
}
