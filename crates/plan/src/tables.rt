ghost use Rattle.std.specs.Prelude.{IsTrue, ◌≤◌, length, sum};
ghost use Rattle.std.specs.List.{list_all};
ghost use Rattle.plan.specs.Kinds.{by_kind, in_kind_limits};
ghost use Rattle.plan.specs.Limits.{Holds, Between, Declares, EndsDeclared};

use crate::resources::Resources;
use byte_vec::byte_vec::ByteVec;

/// The tables of a plan or of a draft. Equal tables are equal values.
// A `ByteVec<N>` is a table of N places together with its count: the places behind the count are 0.
// So is the list of resources.
#[derive(Clone, Copy, Debug, PartialEq, Eq)]
pub struct Tables {
    pub(crate) clusters: ByteVec<8>,
    pub(crate) resources: Resources,
    pub(crate) tasks: ByteVec<64>,
    // fixed memory: place 16 t + r for task t at resource r, and 0 where no length is declared,
    // since none is 0
    pub(crate) lengths: [u16; 1024],
    // the count of this table: how many places have been passed, so that a line in order is known
    // without a look at the places
    pub(crate) lengths_end: usize,
    ghost few_clusters: { length clusters ≤ 8 },
    ghost clusters_sized: { Between 1 9 clusters },
    ghost kinds_in_limits: { IsTrue (list_all (in_kind_limits (sum clusters)) resources) },
    ghost resources_by_kind: { IsTrue (by_kind resources) },
    ghost few_resources: { length resources ≤ 16 },
    ghost few_tasks: { length tasks ≤ 64 },
    ghost tasks_placed: { Between 0 (length clusters) tasks },
    ghost lengths_held: { Holds 1024 lengths lengths_end },
    ghost lengths_declared: { Declares (length tasks) (length resources) lengths },
    ghost lengths_ended: { EndsDeclared lengths lengths_end },
}

/// What a line is asked, and what it adds.
pub mod add;
