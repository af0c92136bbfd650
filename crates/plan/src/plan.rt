ghost use Rattle.std.specs.Prelude.{◌+◌, ◌<◌, length};

use crate::tables::Tables;

/// A sealed plan: its tables keep their limits, and it has a cluster, a resource and a task. So
/// each plan that there is keeps all limits, and nobody above tests one.
#[derive(Clone, Copy, Debug, PartialEq, Eq)]
pub struct Plan {
    pub(crate) tables: Tables,
    ghost has_cluster: { 0 < length tables.clusters },
    ghost has_resource: { 0 < length tables.resources },
    ghost has_task: { 0 < length tables.tasks },
}

/// What a plan answers.
pub mod ask;
