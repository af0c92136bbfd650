ghost use Rattle.std.specs.Prelude.{◌≡◌, ◌<◌, ◌≤◌, length, slice_index};
ghost use Rattle.plan.specs.Of.{plan_contents};
ghost use Rattle.table.specs.Members.{KeepsMembers, members_of};
ghost use Rattle.table.specs.Rows.{KeepsLengths, tasks_in};

use crate::members::Members;
use plan::plan::Plan;
use rules::task::Task;

/// The records of the first `tasks` tasks of a plan; all others are idle. What a task has asked for
/// has a declared length, and it has held for no more ticks than that.
#[derive(Clone, Copy, Debug, PartialEq, Eq)]
pub struct Table<'a> {
    /// The plan.
    pub plan: &'a Plan,
    /// The tasks of each cluster of the plan.
    pub members: &'a Members,
    /// How many tasks there are.
    pub tasks: usize,
    /// Their records, each at the place of its task.
    pub rows: &'a [Task; 64],
    /// The task whose job is looked at as ended, if any.
    pub ended: Option<usize>,
    ghost all_records: { length rows.now ≡ 64 },
    ghost known_tasks: { tasks ≤ length (plan_contents plan.now).tasks },
    ghost keeps_members: { KeepsMembers (plan_contents plan.now) members.now },
    ghost keeps_lengths: { KeepsLengths (plan_contents plan.now) (tasks_in tasks rows.now) },
}

impl Table<'_> {
    // The cluster of a task.
    #[tactic(auto, using(crate::proofs::Rows::entry_there))]
    pub(crate) fn cluster_of(&self, task: usize) -> u8
        requires { task < self.now.tasks }
        ensures { result ≡ slice_index (plan_contents self.now.plan.now).tasks task }
    {
        self.plan.cluster_of(task).unwrap()
    }

    // The processors of the cluster of a task.
    #[tactic(auto, using(crate::proofs::Rows::entry_there, crate::proofs::Rows::cluster_there))]
    pub(crate) fn processors_for(&self, task: usize) -> u8
        requires { task < self.now.tasks }
        ensures { result ≡ slice_index (plan_contents self.now.plan.now).clusters
            (slice_index (plan_contents self.now.plan.now).tasks task) }
    {
        let cluster = self.cluster_of(task);
        self.plan.processors(cluster as usize).unwrap()
    }

    // The tasks of a cluster.
    pub(crate) fn members_of(&self, cluster: u8) -> &[u8]
        ensures tasks { result.now ≡ members_of (plan_contents self.now.plan.now) cluster }
        ensures few { length result.now ≤ 64 }
    {
        self.members.of_cluster(cluster)
    }
}
