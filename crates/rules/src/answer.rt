/// What an ask is answered.
#[derive(Clone, Copy, Debug, PartialEq, Eq)]
pub enum Asked {
    /// The request was issued and holds.
    Hold,
    /// The request was issued and waits.
    Wait,
    /// The job is held back; its request is not issued yet.
    Back,
}

/// A request that a finish issued: its task, and whether it holds. Both are the answer; neither
/// says whether the other counts.
#[derive(Clone, Copy, Debug, PartialEq, Eq)]
pub struct Issued {
    /// Its task.
    pub task: u32,
    /// Whether it holds; else it waits.
    pub holds: bool,
}

/// What a finish is answered: the ticks on which the job was blocked, and the request that was
/// issued thereby.
#[derive(Clone, Copy, Debug, PartialEq, Eq)]
pub struct Finished {
    /// The ticks on which the job was blocked.
    pub blocked: u32,
    /// The request that was issued, if there is one.
    pub issued: Option<Issued>,
}
