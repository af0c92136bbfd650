ghost use Rattle.slots.specs.Limits.{Held, Kept, Sized, Seated};

use crate::line::Line;
use bank::size::RESOURCES;

/// A bank of slot resources: how many slots each has, and who is active there, as they entered.
#[derive(Clone, Copy, Debug, PartialEq, Eq)]
pub struct Slots {
    // fixed memory: a line for each of the most resources, of which `count` are in use
    pub(crate) lines: [Line; RESOURCES],
    pub(crate) count: u32,
    pub(crate) seats: u32,
    ghost seated: { Seated seats },
    ghost held: { Held lines },
    ghost sized: { Sized lines count },
    ghost kept: { Kept seats lines },
}

/// Its calls as a bank.
pub mod calls;
mod change;
/// A bank is made from a plan.
pub mod make;
