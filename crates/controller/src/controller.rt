ghost use Rattle.std.specs.Prelude.{◌≡◌, ℕ, ◌≤◌, None, length, slice_index_or};
ghost use Rattle.plan.specs.Contents.{resource_count};
ghost use Rattle.plan.specs.Of.{plan_contents};
ghost use Rattle.rules.specs.States.{idle_task};
ghost use Rattle.table.specs.Members.{KeepsMembers};
ghost use Rattle.table.specs.Rows.{KeepsLengths, tasks_in};

use bank::meaning::Bank;
use plan::plan::Plan;
use table::members::Members;
use table::table::Table;
use table::tasks::Tasks;

/// A controller over a bank. Where the bank fits the plan it has the plan's tasks and resources,
/// and else none. It starts at clock 0, with no task released.
#[derive(Debug, PartialEq, Eq, Drop)]
pub struct Controller<B: Bank> {
    plan: Plan,
    members: Members,
    tasks: usize,
    resources: u32,
    table: Tasks,
    clock: u32,
    releases: u32,
    bank: B,
    ghost known_tasks: { tasks ≤ length (plan_contents plan).tasks },
    ghost few_tasks: { tasks ≤ 64 },
    ghost keeps_members: { KeepsMembers (plan_contents plan) members },
    ghost few_resources: { resources ≤ resource_count (plan_contents plan) },
    ghost clock_ends: { clock ≤ 100000000 },
    ghost releases_end: { releases ≤ 100000000 },
    ghost blocked_ticks: { (q : ℕ) → (slice_index_or table.records.rows q idle_task).blocked ≤ clock },
    ghost keeps_lengths: { KeepsLengths (plan_contents plan) (tasks_in tasks table.records.rows) },
}

impl<B: Bank> Controller<B> {
    // The plan with the records of its tasks.
    fn jobs(&self) -> Table<'_>
        ensures plan { result.plan.now ≡ self.now.plan }
        ensures members { result.members.now ≡ self.now.members }
        ensures tasks { result.tasks ≡ self.now.tasks }
        ensures rows { result.rows.now ≡ self.now.table.records.rows }
        ensures ended { result.ended ≡ None }
    {
        Table {
            plan: &self.plan,
            members: &self.members,
            tasks: self.tasks,
            rows: self.table.rows(),
            ended: None,
        }
    }
}

// Each call stands twice: `do_` and its name says what it does, and the call itself adds the law of
// runs, by a lemma.
/// A task asks for a resource.
pub mod ask;
/// What is asked before a call for a task.
pub mod check;
/// A job ends.
pub mod finish;
/// A task gives back what it holds.
pub mod give;
/// A controller is made.
pub mod new;
/// A job begins.
pub mod release;
/// What a controller is asked.
pub mod tell;
/// A tick passes.
pub mod tick;
