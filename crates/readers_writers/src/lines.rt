ghost use Rattle.std.specs.Prelude.{◌≡◌, ◌≤◌, length};
ghost use Rattle.bank.specs.declared.size.TheConstants.{PARTIES, RESOURCES};
ghost use Rattle.readers_writers.specs.Limits.{AllKeep};

use crate::line::Line;
use bank::size::RESOURCES;

/// Reader-writer resources, with so many seats at each.
#[derive(Debug, PartialEq, Eq, Drop)]
pub struct ReadersWriters {
    // fixed memory: a line for each of the most resources, of which `count` are in use
    pub(crate) lines: [Line; RESOURCES],
    pub(crate) count: u32,
    pub(crate) seats: u32,
    ghost long: { length lines ≡ RESOURCES },
    ghost few: { count ≤ RESOURCES },
    ghost seated: { 1 ≤ seats },
    ghost most: { seats ≤ PARTIES },
    ghost kept: { AllKeep lines count seats },
}

/// Its calls as a bank.
pub mod calls;
mod change;
/// A bank is made from a plan.
pub mod make;
