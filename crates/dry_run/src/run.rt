use crate::banks::PlanBanks;
use byte_vec::byte_vec::ByteVec;
use controller::controller::Controller;

/// What a dry run reads next.
#[derive(Clone, Copy, Debug, PartialEq, Eq)]
pub enum Phase {
    /// The plan, up to its empty line.
    Plan,
    /// The event lines behind it.
    Events,
    /// Nothing more: the plan was refused.
    Over,
}

/// What a dry run reads next, with what is kept of it.
#[derive(Debug, PartialEq, Eq, Drop)]
pub enum Progress {
    /// The plan, up to its empty line: its text so far, and whether a line begins behind it.
    Plan {
        text: ByteVec<16383>,
        begins: bool,
    },
    /// The event lines behind it: the controller, and the line so far.
    Events {
        controller: Controller<PlanBanks>,
        line: ByteVec<16>,
    },
    /// Nothing more: the plan was refused.
    Over,
}

/// A dry run in the middle of its input.
#[derive(Debug, PartialEq, Eq, Drop)]
pub struct DryRun {
    progress: Progress,
}

/// The next bytes of the input, and its end.
pub mod feed;
/// A dry run begins.
pub mod new;
/// What is read next.
pub mod next;
/// What a line does, and bytes that end none.
pub mod take;
