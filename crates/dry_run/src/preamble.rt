ghost use Rattle.std.specs.Prelude.{◌≤◌, length};
ghost use Rattle.plan.specs.Of.{plan_contents};
ghost use Rattle.dry_run.specs.Banks.{BanksOf};
ghost use Rattle.event.specs.Laid.{Laid};
ghost use Rattle.dry_run.specs.Said.{preamble_text};

use crate::banks::PlanBanks;
use limits::limits::write_limits;
use plan::plan::Plan;

// Lays the lines before those of the events at the start of memory, each kind by a call of its own,
// and answers their size.
pub(crate) fn lay_preamble(plan: &Plan, banks: &PlanBanks, out: &mut [u8]) -> usize
    requires { BanksOf (plan_contents plan.now) banks.now × (1040 ≤ length out.old) }
    ensures laid { Laid out.old 0 (preamble_text (plan_contents plan.now)) result out.new }
    ensures few { result ≤ 1040 }
{
    write_limits(plan, banks, out).unwrap()
}
