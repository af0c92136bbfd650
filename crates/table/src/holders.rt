ghost use Rattle.std.specs.Prelude.{◌≡◌, ◌<◌};
ghost use Rattle.std.specs.List.{filter_map, range_with_len};
ghost use Rattle.plan.specs.Of.{plan_contents};
ghost use Rattle.rules.specs.Holders.{IsNearestEnd, nearest_of};
ghost use Rattle.table.specs.Rows.{holder_at};
ghost use Rattle.table.specs.Tables.{records_of};

use crate::table::Table;
use arrayvec::ArrayVec;
use order::elements::Holder;
use order::row::first_of;
use rules::task::State;

impl Table<'_> {
    // The holder of a task, if it holds, with the ticks that it has left.
    fn holder_at(&self, task: usize) -> Option<Holder>
        requires { task < 64 }
        ensures { result ≡ holder_at (plan_contents self.now.plan.now) (records_of self.now) task }
    {
        let record = self.task(task);
        let State::Holding(wanted) = record.state else {
            return None;
        };
        let length = self.plan.length(task, wanted.resource as usize).unwrap() as u32;
        Some(Holder {
            left: length - record.used,
            task: task as u32,
        })
    }

    // The holders.
    fn holder_row(&self) -> ArrayVec<Holder, 64>
        ensures { result.items ≡ filter_map
            (holder_at (plan_contents self.now.plan.now) (records_of self.now))
            (range_with_len 0 self.now.tasks) }
    {
        let mut row = ArrayVec::new();
        for task in 0..self.tasks {
            if let Some(holder) = self.holder_at(task) {
                row.push(holder);
            }
        }
        row
    }

    // The holder that has the fewest ticks left, of equal ones the lowest: its task and its ticks
    // left.
    fn nearest(&self) -> Option<(u32, u32)>
        ensures { result ≡ nearest_of (plan_contents self.now.plan.now) self.now.tasks
            (records_of self.now) }
    {
        let row = self.holder_row();
        let holders = row.as_slice();
        let holder = holders[first_of(holders)?];
        Some((holder.task, holder.left))
    }

    /// The task of the holder that has the fewest ticks left, of equal ones the lowest, and its
    /// ticks left. Nothing where nobody holds.
    pub fn nearest_end(&self) -> Option<(u32, u32)>
        ensures value { result ≡ nearest_of (plan_contents self.now.plan.now) self.now.tasks
            (records_of self.now) }
        ensures nearest { IsNearestEnd (plan_contents self.now.plan.now) (records_of self.now)
            result }
    {
        self.nearest()
    }
}
