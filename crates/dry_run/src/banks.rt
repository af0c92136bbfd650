ghost use Rattle.plan.specs.Of.{plan_contents};
ghost use Rattle.dry_run.specs.Banks.{BanksOf};

use pair::pair::Pair;
use plan::plan::Plan;
use readers_writers::lines::ReadersWriters;
use slots::slots::Slots;

/// The banks of a plan: its slots, paired with its readers and writers.
pub type PlanBanks = Pair<Slots, ReadersWriters>;

/// A plan's slots, paired with its readers and writers, with nobody active.
pub fn banks_of(plan: &Plan) -> PlanBanks
    ensures { BanksOf (plan_contents plan.now) result }
{
    Pair {
        first: Slots::new(plan),
        second: ReadersWriters::new(plan),
    }
}
