use bank::request::Mode;

/// A resource and the mode in which it is asked for.
#[derive(Clone, Copy, Debug, PartialEq, Eq)]
pub struct Wanted {
    /// The resource, from 0.
    pub resource: u32,
    /// The mode.
    pub mode: Mode,
}

/// The state of a task.
#[derive(Clone, Copy, Debug, PartialEq, Eq)]
pub enum State {
    /// It has no unfinished job.
    Idle,
    /// Its job has no request to give back.
    Going,
    /// Its job's request is not issued yet.
    HeldBack(Wanted),
    /// Its job's request is issued and waits.
    Waiting(Wanted),
    /// Its job's request is issued and holds.
    Holding(Wanted),
}

/// The record of a task: the release number of its unfinished job, the ticks for which its request
/// has held, and the ticks on which its job was blocked.
#[derive(Clone, Copy, Debug, PartialEq, Eq)]
pub struct Task {
    /// Its state.
    pub state: State,
    /// The release number of its unfinished job, and 0 where it has none.
    pub release: u32,
    /// The ticks for which its request has held.
    pub used: u32,
    /// The ticks on which its job was blocked.
    pub blocked: u32,
}

impl Task {
    /// The record of a task without a job.
    pub const IDLE: Task = Task {
        state: State::Idle,
        release: 0,
        used: 0,
        blocked: 0,
    };
}
