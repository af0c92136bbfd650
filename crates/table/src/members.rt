ghost use Rattle.std.specs.List.{filter, range_with_len};
ghost use Rattle.std.specs.Prelude.{◌≡◌, ◌≤◌, ◌==◌, [], length, slice_index, slice_index_or};
ghost use Rattle.plan.specs.Of.{plan_contents};
ghost use Rattle.table.specs.Members.{KeepsMembers};

use byte_vec::byte_vec::ByteVec;
use plan::plan::Plan;

/// The tasks of each cluster of a plan, lower ones first. Found once, so that who looks at a
/// cluster passes by no other task.
#[derive(Clone, Copy, Debug, PartialEq, Eq)]
pub struct Members {
    pub(crate) parts: [ByteVec<64>; 8],
}

// The tasks of one cluster, where the cluster of each task is told.
fn tasks_of(homes: &[u8], cluster: usize) -> ByteVec<64>
    requires { length homes.now ≤ 64 }
    ensures { result ≡ filter (λ t. slice_index homes.now t == cluster)
        (range_with_len 0 (length homes.now)) }
{
    let mut tasks = ByteVec::new();
    for (task, home) in homes.iter().enumerate() {
        if *home as usize == cluster {
            tasks.push(task as u8).unwrap();
        }
    }
    tasks
}

impl Members {
    /// The tasks of each cluster of a plan.
    pub fn new(plan: &Plan) -> Members
        ensures { KeepsMembers (plan_contents plan.now) result }
    {
        let mut parts = [ByteVec::new(); 8];
        for (cluster, part) in parts.iter_mut().enumerate() {
            *part = tasks_of(plan.task_clusters(), cluster);
        }
        Members { parts }
    }

    /// The tasks of a cluster; none where there is no such cluster.
    pub fn of_cluster(&self, cluster: u8) -> &[u8]
        ensures tasks { result.now ≡ slice_index_or self.now.parts cluster [] }
        ensures few { length result.now ≤ 64 }
    {
        match self.parts.get(cluster as usize) {
            Some(part) => part.as_slice(),
            None => &[],
        }
    }
}
