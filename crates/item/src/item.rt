/// What one line of a plan says.
#[derive(Clone, Copy, Debug, PartialEq, Eq)]
pub enum Item {
    /// `C,c`: a cluster of c processors.
    Cluster(u32),
    /// `S,k`: a slot resource for k holders.
    Slots(u32),
    /// `W`: a reader-writer resource.
    ReaderWriter,
    /// `T,g`: a task of cluster g.
    Task(u32),
    /// `L,t,r,n`: task t declares length n at resource r.
    Length {
        /// t, the number of the task, from 0.
        task: u32,
        /// r, the number of the resource, from 0.
        resource: u32,
        /// n, in ticks.
        ticks: u32,
    },
}
