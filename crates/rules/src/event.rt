use crate::answer::{Asked, Finished};
use crate::call::Call;
use crate::refusal::Refusal;
use bank::request::Mode;

/// A call that was accepted, with its answer.
#[derive(Clone, Copy, Debug, PartialEq, Eq)]
pub enum Acceptance {
    /// A task released a job.
    Release {
        /// The task.
        task: u32,
        /// The release number of the job.
        number: u32,
    },
    /// A task asked for a resource in a mode.
    Ask {
        /// The task.
        task: u32,
        /// The resource.
        resource: u32,
        /// The mode.
        mode: Mode,
        /// Whether the request holds, waits or is held back.
        asked: Asked,
    },
    /// A task gave back what it held.
    Give {
        /// The task.
        task: u32,
        /// The ticks for which the request held.
        used: u32,
    },
    /// A task finished its job.
    Finish {
        /// The task.
        task: u32,
        /// The ticks on which the job was blocked, and the request that was issued thereby.
        finished: Finished,
    },
    /// A tick.
    Tick {
        /// The clock after it.
        clock: u32,
    },
}

/// A call with what became of it.
#[derive(Clone, Copy, Debug, PartialEq, Eq)]
pub enum Event {
    /// The call was accepted.
    Accepted(Acceptance),
    /// The call was refused.
    Refused(Call, Refusal),
}
