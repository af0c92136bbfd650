ghost use Rattle.std.specs.Prelude.{◌≡◌, ◌≤◌, length};
ghost use Rattle.plan.specs.Of.{plan_contents};
ghost use Rattle.readers_writers.specs.ReadersWriters.{MadeFrom};
ghost use Rattle.readers_writers.specs.Told.{reader_writers_of};

use crate::lines::ReadersWriters;
use plan::plan::Plan;
use plan::resource::Resource;

// How many of these resources are reader-writer resources.
fn count_in(resources: &[Resource]) -> u32
    requires { length resources.now ≤ 16 }
    ensures count { result ≡ reader_writers_of resources.now }
    ensures few { result ≤ 16 }
{
    resources
        .iter()
        .filter(|resource| matches!(resource, Resource::ReaderWriter))
        .count() as u32
}

impl ReadersWriters {
    /// The reader-writer resources of a plan, with a seat for each processor, and nobody active.
    pub fn new(plan: &Plan) -> ReadersWriters
        ensures { MadeFrom (plan_contents plan.now) result }
    {
        let count = count_in(plan.resource_row());
        let seats = plan.all_processors();
        ReadersWriters {
            lines: Default::default(),
            count,
            seats,
        }
    }
}
