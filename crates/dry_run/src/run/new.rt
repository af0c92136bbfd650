ghost use Rattle.std.specs.Prelude.{[]};
ghost use Rattle.dry_run.specs.Fed.{Fed};

use crate::run::{DryRun, Progress};
use byte_vec::byte_vec::ByteVec;

impl DryRun {
    /// A dry run of which no input has come.
    pub fn new() -> DryRun
        ensures { Fed result [] [] }
    {
        DryRun {
            progress: Progress::Plan {
                text: ByteVec::new(),
                begins: true,
            },
        }
    }
}
