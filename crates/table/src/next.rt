ghost use Rattle.std.specs.Prelude.{◌≡◌, None, cond, nat_lt};
ghost use Rattle.plan.specs.Of.{plan_contents};
ghost use Rattle.rules.specs.Jobs.{earliest_of, if_first, jobs_of, next_after, next_of};
ghost use Rattle.table.specs.Rows.{tasks_in};
ghost use Rattle.table.specs.Tables.{records_of};

use crate::selection::Selection;
use crate::table::Table;
use arrayvec::ArrayVec;
use order::elements::Job;
use order::row::first_of;

impl Table<'_> {
    // The task of the earliest held-back job of a cluster.
    fn earliest(&self, cluster: u8) -> Option<usize>
        ensures { result ≡ earliest_of (plan_contents self.now.plan.now) self.now.tasks
            (jobs_of (records_of self.now)) cluster }
    {
        let mut row: ArrayVec<Job, 64> = ArrayVec::new();
        self.add_jobs(Selection::HeldBack, self.members_of(cluster), &mut row);
        let held_back = row.as_slice();
        let place = first_of(held_back)?;
        Some(held_back[place].task as usize)
    }

    // The task, if its job is among the first.
    fn if_first(&self, next: Option<usize>) -> Option<usize>
        ensures { result ≡ if_first (plan_contents self.now.plan.now) self.now.tasks
            (jobs_of (records_of self.now)) next }
    {
        let task = next?;
        self.is_first(task).then_some(task)
    }

    // The task of the earliest held-back job of a cluster, if that job is among the first.
    fn next_issued(&self, cluster: u8) -> Option<usize>
        ensures { result ≡ next_of (plan_contents self.now.plan.now) self.now.tasks
            (jobs_of (records_of self.now)) cluster }
    {
        self.if_first(self.earliest(cluster))
    }

    /// The task whose request is issued when the job of a task ends: that of the earliest held-back
    /// job of the cluster, if it is then among the first. Nothing where none is held back, or where
    /// there is no such task.
    pub fn next_after(&self, task: usize) -> Option<usize>
        ensures { result ≡ cond (nat_lt task self.now.tasks)
            (next_after (plan_contents self.now.plan.now) self.now.tasks
            (tasks_in self.now.tasks self.now.rows.now) task) None }
    {
        if task >= self.tasks {
            return None;
        }
        let after = Table {
            plan: self.plan,
            members: self.members,
            tasks: self.tasks,
            rows: self.rows,
            ended: Some(task),
        };
        after.next_issued(self.cluster_of(task))
    }
}
