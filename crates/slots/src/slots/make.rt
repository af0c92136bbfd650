ghost use Rattle.std.specs.Prelude.{◌≡◌, ℕ, [], length, slice_index, slice_index_or};
ghost use Rattle.bank.specs.declared.size.TheConstants.{RESOURCES};
ghost use Rattle.plan.specs.Of.{plan_contents};
ghost use Rattle.slots.specs.Planned.{slots_of};
ghost use Rattle.slots.specs.Rows.{row, bare};
ghost use Rattle.slots.specs.Slots.{MadeFrom};

use crate::line::Line;
use crate::slots::Slots;
use bank::size::{PARTIES, RESOURCES};
use plan::plan::Plan;
use plan::resource::Resource;

// The slot resources of a plan with nobody active, and how many there are.
fn lines_of(plan: &Plan) -> ([Line; RESOURCES], u32)
    ensures long { length result.0 ≡ RESOURCES }
    ensures count { result.1 ≡ length (slots_of (plan_contents plan.now).resources) }
    ensures each { (r : ℕ) → (slice_index_or result.0 r bare).slots ≡ slice_index (slots_of (plan_contents plan.now).resources) r }
    ensures nobody { (r : ℕ) → row (slice_index_or result.0 r bare) ≡ [] }
{
    let line = Line {
        slots: 0,
        parties: [0; PARTIES],
        size: 0,
    };
    let mut lines = [line; RESOURCES];
    let mut count = 0;
    for place in 0..plan.resources() {
        match plan.resource_row()[place] {
            Resource::Slots(k) => {
                lines[count].slots = k as u8;
                count += 1;
            }
            Resource::ReaderWriter => {}
        }
    }
    (lines, count as u32)
}

impl Slots {
    /// The slot resources of a sealed plan, with nobody active.
    pub fn new(plan: &Plan) -> Slots
        ensures { MadeFrom (plan_contents plan.now) result }
    {
        let (lines, count) = lines_of(plan);
        Slots {
            lines,
            count,
            seats: plan.all_processors(),
        }
    }
}
