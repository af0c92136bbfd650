ghost use Rattle.std.specs.Prelude.{◌≡◌, ◌↔◌, IsTrue, ℕ, ◌<◌, ◌≤◌, length};
ghost use Rattle.controller.specs.Checks.{Checked};
ghost use Rattle.controller.specs.Of.{setup_of, snapshot_of};
ghost use Rattle.plan.specs.Contents.{resource_count};
ghost use Rattle.plan.specs.Of.{plan_contents};
ghost use Rattle.rules.specs.Fits.{TellsFit};
ghost use Rattle.rules.specs.Questions.{fits_at, fits, fit_questions};
ghost use Rattle.rules.specs.Runs.{Begins, Starts};
ghost use Rattle.rules.specs.States.{idle_task};
ghost use Rattle.table.specs.Rows.{tasks_in};

use crate::controller::Controller;
use bank::meaning::Bank;
use plan::plan::Plan;
use rules::refusal::Refusal;
use table::members::Members;
use table::tasks::Tasks;

// Whether a resource of the plan and the bank has the plan's k and modes, and nobody active.
#[tactic(auto, unfolding(rules::specs::Questions::slots_in, rules::specs::Questions::reads_in))]
fn fits_at<B: Bank>(plan: &Plan, bank: &B, resource: u32) -> bool
    requires { (resource < (B.Bank.told bank.now).resources)
        × (resource < resource_count (plan_contents plan.now)) }
    ensures { result ≡ fits_at (plan_contents plan.now) (B.Bank.told bank.now) (B.Bank.active bank.now) resource }
{
    let planned = plan.resource_row()[resource as usize];
    let holders = planned.holders();
    let reads = planned.knows_reads();
    bank.slots(resource).is_ok_and(|slots| slots == holders)
        && bank.reads(resource).is_ok_and(|known| known == reads)
        && bank.count(resource).is_ok_and(|active| active == 0)
}

// Whether each of the first so many resources fits.
fn each_fits<B: Bank>(plan: &Plan, bank: &B, resources: u32) -> bool
    requires { (resources ≤ (B.Bank.told bank.now).resources)
        × (resources ≤ resource_count (plan_contents plan.now)) }
    ensures { IsTrue result ↔ ((r : ℕ) → r < resources → IsTrue (fits_at (plan_contents plan.now) (B.Bank.told bank.now) (B.Bank.active bank.now) r)) }
{
    for resource in 0..resources {
        if !fits_at(plan, bank, resource) {
            return false;
        }
    }
    true
}

// Whether a bank fits a plan.
fn fits_all<B: Bank>(plan: &Plan, bank: &B) -> bool
    ensures { result ≡ fits (plan_contents plan.now) (B.Bank.told bank.now) (B.Bank.active bank.now) }
{
    let resources = bank.resources();
    resources as usize == plan.resources()
        && bank.seats() == plan.all_processors()
        && each_fits(plan, bank, resources)
}

impl<B: Bank> Controller<B> {
    /// Whether the bank has the plan's resources, each with the plan's k and modes, as many seats
    /// as the plan has processors, and nobody active. Refused with 24 where it has not.
    pub fn fits(plan: &Plan, bank: &B) -> Result<(), Refusal>
        ensures checked { Checked (fit_questions (plan_contents plan.now) (B.Bank.told bank.now)
            (B.Bank.active bank.now)) result }
        ensures fits { TellsFit (plan_contents plan.now) (B.Bank.told bank.now)
            (B.Bank.active bank.now) result }
    {
        if fits_all(plan, bank) {
            Ok(())
        } else {
            Err(Refusal::NoFit)
        }
    }

    // A controller of so many tasks and resources, every task idle. Inlined, as what calls it, so
    // that so large a value is not moved from call to call.
    #[inline(always)]
    fn with_tasks(plan: &Plan, bank: B, tasks: usize, resources: u32) -> Controller<B>
        requires { (tasks ≤ length (plan_contents plan.now).tasks) × (resources ≤ resource_count (plan_contents plan.now)) }
        ensures plan { result.plan ≡ plan.now }
        ensures bank { result.bank ≡ bank }
        ensures tasks { result.tasks ≡ tasks }
        ensures resources { result.resources ≡ resources }
        ensures idle { (q : ℕ) → tasks_in result.tasks result.table.records.rows q ≡ idle_task }
        ensures clock { result.clock ≡ 0 }
        ensures releases { result.releases ≡ 0 }
    {
        Controller {
            plan: *plan,
            members: Members::new(plan),
            tasks,
            resources,
            table: Tasks::idle(),
            clock: 0,
            releases: 0,
            bank,
        }
    }

    #[inline(always)]
    fn start(plan: &Plan, bank: B) -> Controller<B>
        ensures begins { Begins (setup_of B.Bank result) (snapshot_of B.Bank result) }
        ensures plan { plan_contents result.plan ≡ plan_contents plan.now }
        ensures bank { result.bank ≡ bank }
    {
        if fits_all(plan, &bank) {
            Controller::with_tasks(plan, bank, plan.tasks(), plan.resources() as u32)
        } else {
            Controller::with_tasks(plan, bank, 0, 0)
        }
    }

    /// A controller at clock 0 with every task idle. Over a bank that fits it has the plan's tasks
    /// and resources. Over another it has none, so that each call for a task is refused with 1.
    #[inline(always)]
    pub fn new(plan: &Plan, bank: B) -> Controller<B>
        ensures begins { Begins (setup_of B.Bank result) (snapshot_of B.Bank result) }
        ensures starts { Starts (setup_of B.Bank result) (snapshot_of B.Bank result) }
        ensures plan { plan_contents result.plan ≡ plan_contents plan.now }
        ensures bank { result.bank ≡ bank }
    {
        Controller::start(plan, bank)
    }
}
