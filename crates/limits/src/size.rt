/// The most bytes of the line of a resource.
pub const LINE_BYTES: usize = 65;

/// The most bytes of the lines of all resources, of which there are 16 at most.
pub const LIMITS_BYTES: usize = 1040;
