ghost use Rattle.std.specs.Prelude.{◌≡◌, ◌<◌, ◌≤◌, length, IfSome};
ghost use Rattle.std.specs.List.{slice_get};
ghost use Rattle.plan.specs.Contents.{smallest, processors, resource_count, resource_at, length_at, longest_at, longest_of};
ghost use Rattle.plan.specs.KeepsLimits.{From, KeepsLimits};
ghost use Rattle.plan.specs.Kinds.{holders_of};
ghost use Rattle.plan.specs.Of.{contents_of, plan_contents};

use crate::plan::Plan;
use crate::resource::Resource;
use crate::tables::Tables;

// The entry at a place of a table, if there is one.
fn entry(table: &[u8], place: usize) -> Option<u8>
    ensures { result ≡ slice_get table.now place }
{
    table.get(place).copied()
}

// The length that a task declares at a resource, if any.
#[tactic(auto, using(crate::proofs::Grid::length_held, crate::proofs::Grid::length_none, std::proofs::lemmas::Bool::Decides::nat_tests))]
fn declared_length(tables: &Tables, task: usize, resource: usize) -> Option<u16>
    ensures { result ≡ length_at (contents_of tables.now) task resource }
{
    if task >= tables.tasks.len() || resource >= tables.resources.len() {
        return None;
    }
    let ticks = tables.lengths[task * 16 + resource];
    (ticks != 0).then_some(ticks)
}

// The longest length declared for a resource that exists.
#[tactic(auto, using(crate::proofs::Grid::length_held, crate::proofs::Grid::held_or_zero, std::proofs::lemmas::Grind::common_steps))]
fn longest_length(tables: &Tables, resource: usize) -> u16
    requires { resource < 16 }
    ensures { result ≡ longest_at (contents_of tables.now) resource }
{
    let mut longest: u16 = 0;
    // by task number, since the place in the table is reckoned from it
    for task in 0..tables.tasks.len() {
        longest = longest.max(tables.lengths[task * 16 + resource]);
    }
    longest
}

// The tables of the smallest plan.
fn smallest_tables() -> Tables
    ensures { contents_of result ≡ smallest }
{
    let mut tables = Tables::new();
    tables.store_cluster(1);
    tables.store_resource(Resource::Slots(1));
    tables.store_task(0);
    tables
}

impl Plan {
    /// The smallest plan: `C,1` `S,1` `T,0`.
    #[tactic(auto, using(crate::proofs::KeepsLimits::keeps_limits))]
    pub fn new() -> Plan
        ensures value { plan_contents result ≡ smallest }
        ensures limits { KeepsLimits (plan_contents result) }
    {
        Plan {
            tables: smallest_tables(),
        }
    }

    /// How many clusters there are. Whoever is handed a plan asks this first, so it also says that
    /// a plan keeps all its limits.
    #[tactic(auto, using(crate::proofs::KeepsLimits::keeps_limits))]
    pub fn clusters(&self) -> usize
        ensures value { result ≡ length (plan_contents self.now).clusters }
        ensures limits { KeepsLimits (plan_contents self.now) }
    {
        self.tables.clusters.len()
    }

    /// The processors of a cluster, if it exists.
    pub fn processors(&self, cluster: usize) -> Option<u8>
        ensures { result ≡ slice_get (plan_contents self.now).clusters cluster }
    {
        entry(self.tables.clusters.as_slice(), cluster)
    }

    /// The processors of all clusters together.
    pub fn all_processors(&self) -> u32
        ensures { result ≡ processors (plan_contents self.now) }
    {
        self.tables.processors()
    }

    /// The processors of each cluster.
    pub fn cluster_processors(&self) -> &[u8]
        ensures value { result.now ≡ (plan_contents self.now).clusters }
        ensures few { length result.now ≤ 8 }
    {
        self.tables.clusters.as_slice()
    }

    /// The resources, by kind.
    pub fn resource_row(&self) -> &[Resource]
        ensures value { result.now ≡ (plan_contents self.now).resources }
        ensures few { length result.now ≤ 16 }
    {
        self.tables.resources.as_slice()
    }

    /// The cluster of each task.
    pub fn task_clusters(&self) -> &[u8]
        ensures value { result.now ≡ (plan_contents self.now).tasks }
        ensures few { length result.now ≤ 64 }
    {
        self.tables.tasks.as_slice()
    }

    /// How many resources there are.
    pub fn resources(&self) -> usize
        ensures { result ≡ resource_count (plan_contents self.now) }
    {
        self.tables.resources.len()
    }

    /// A resource, if it exists. In mode W it is for 1 to 64 holders.
    #[tactic(auto, using(crate::proofs::KeepsLimits::few_holders))]
    pub fn resource(&self, resource: usize) -> Option<Resource>
        ensures value { result ≡ resource_at (plan_contents self.now) resource }
        ensures holders { IfSome result (λ r. From 1 64 (holders_of r)) }
    {
        self.resource_row().get(resource).copied()
    }

    /// How many tasks there are.
    pub fn tasks(&self) -> usize
        ensures { result ≡ length (plan_contents self.now).tasks }
    {
        self.tables.tasks.len()
    }

    /// The cluster of a task, if it exists.
    pub fn cluster_of(&self, task: usize) -> Option<u8>
        ensures { result ≡ slice_get (plan_contents self.now).tasks task }
    {
        entry(self.tables.tasks.as_slice(), task)
    }

    /// The length that a task declares at a resource, in ticks, if any.
    pub fn length(&self, task: usize, resource: usize) -> Option<u16>
        ensures { result ≡ length_at (plan_contents self.now) task resource }
    {
        declared_length(&self.tables, task, resource)
    }

    /// The longest length declared for a resource, in ticks, or 0 where none is; nothing if the
    /// resource does not exist.
    pub fn longest(&self, resource: usize) -> Option<u16>
        ensures { result ≡ longest_of (plan_contents self.now) resource }
    {
        if resource >= self.tables.resources.len() {
            return None;
        }
        Some(longest_length(&self.tables, resource))
    }
}
