use bank::request::Mode;

/// A call of the controller, with what is named in it.
#[derive(Clone, Copy, Debug, PartialEq, Eq)]
pub enum Call {
    /// A task releases a job.
    Release(u32),
    /// A task asks for a resource in a mode.
    Ask {
        /// The task.
        task: u32,
        /// The resource.
        resource: u32,
        /// The mode.
        mode: Mode,
    },
    /// A task gives back what it holds.
    Give(u32),
    /// A task finishes its job.
    Finish(u32),
    /// A tick.
    Tick,
}
