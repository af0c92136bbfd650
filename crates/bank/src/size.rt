/// The most parties of a bank, and so the most seats of a resource.
pub const PARTIES: usize = 64;

/// The most resources of a bank.
pub const RESOURCES: usize = 16;

/// The highest turn limit.
pub const MOST_TURNS: u32 = 1000;
