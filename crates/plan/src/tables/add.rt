ghost use Rattle.std.specs.Prelude.{◌≡◌, IsTrue, ◌+◌, ◌*◌, ◌<◌, ◌≤◌, length, sum, replicate, Some, None, Ok, Err};
ghost use Rattle.text.specs.Questions.{first_no};
ghost use Rattle.text.specs.Refusals.{number};
ghost use Rattle.plan.specs.Adding.{empty, none, below, above, entered, in_order, in_limits, has_room, entry_questions};
ghost use Rattle.plan.specs.Contents.{processors};
ghost use Rattle.plan.specs.Drafts.{TakesLine};
ghost use Rattle.plan.specs.Limits.{Between};
ghost use Rattle.plan.specs.Kinds.{in_kind_limits, none_later};
ghost use Rattle.plan.specs.Of.{placed, declared, contents_of};
ghost use Rattle.plan.specs.declared.entry.Entry.TheVariants.{Cluster as ClusterEntry, Resource as ResourceEntry, Task as TaskEntry, Length as LengthEntry};

use crate::entry::{Entry, entry_of};
use crate::resource::Resource;
use crate::resources::Resources;
use crate::tables::Tables;
use byte_vec::byte_vec::ByteVec;
use item::item::Item;
use text::refusal::Refusal;

// The sum of at most eight numbers.
fn sum(numbers: &[u8]) -> u32
    requires { length numbers.now ≤ 8 }
    ensures { result ≡ sum numbers.now }
{
    numbers.iter().map(|n| *n as u32).sum()
}

// Whether the length at a place stands below a task and a resource.
fn is_below(place: u32, task: u32, resource: u32) -> bool
    ensures { result ≡ below (placed place 0) task resource }
{
    place / 16 < task || place / 16 == task && place % 16 < resource
}

impl Tables {
    // Tables with nothing in them, over a place of the lengths where none is declared.
    fn bare(lengths: [u16; 1024]) -> Tables
        requires { lengths ≡ replicate 1024 0 }
        ensures { contents_of result ≡ record empty { lengths = declared 0 lengths } }
    {
        Tables {
            clusters: ByteVec::new(),
            resources: Resources::new(),
            tasks: ByteVec::new(),
            lengths,
            lengths_end: 0,
        }
    }

    /// Tables with nothing in them.
    #[tactic(auto, using(crate::proofs::Grid::declared_none, crate::proofs::Rows::zeros))]
    pub fn new() -> Tables
        ensures { contents_of result ≡ empty }
    {
        Tables::bare([0; 1024])
    }

    // The processors of all clusters.
    pub(crate) fn processors(&self) -> u32
        ensures { result ≡ processors (contents_of self.now) }
    {
        sum(self.clusters.as_slice())
    }

    // Whether no length is declared.
    #[tactic(auto, using(crate::proofs::Grid::none_declared))]
    fn no_lengths(&self) -> bool
        ensures { result ≡ none (contents_of self.now).lengths }
    {
        self.lengths_end == 0
    }

    // Whether a length of these numbers stands above all that are declared.
    #[tactic(auto, using(crate::proofs::Grid::above_ended, crate::proofs::Grid::declared_none))]
    fn rises(&self, task: u32, resource: u32) -> bool
        ensures { result ≡ above (contents_of self.now).lengths task resource }
    {
        if self.lengths_end == 0 {
            return true;
        }
        is_below((self.lengths_end - 1) as u32, task, resource)
    }

    // Whether no resource of a later kind than this one was taken.
    fn none_later(&self, resource: Resource) -> bool
        ensures { result ≡ none_later (contents_of self.now).resources resource }
    {
        self.resources
            .as_slice()
            .iter()
            .all(|taken| taken.rank() <= resource.rank())
    }

    fn in_order(&self, entry: Entry) -> bool
        ensures { result ≡ in_order (contents_of self.now) entry }
    {
        match entry {
            Entry::Cluster(_) => self.resources.len() == 0
                && self.tasks.len() == 0
                && self.no_lengths(),
            Entry::Resource(resource) => self.none_later(resource)
                && self.tasks.len() == 0
                && self.no_lengths(),
            Entry::Task(_) => self.no_lengths(),
            Entry::Length {
                task,
                resource,
                ticks: _,
            } => self.rises(task, resource),
        }
    }

    fn in_limits(&self, entry: Entry) -> bool
        ensures { result ≡ in_limits (contents_of self.now) entry }
    {
        match entry {
            Entry::Cluster(c) => (1..=8).contains(&c),
            Entry::Resource(resource) => resource.in_limits(self.processors()),
            Entry::Task(g) => (g as usize) < self.clusters.len(),
            Entry::Length {
                task,
                resource,
                ticks,
            } => {
                (task as usize) < self.tasks.len()
                    && (resource as usize) < self.resources.len()
                    && (1..=10000).contains(&ticks)
            }
        }
    }

    fn has_room(&self, entry: Entry) -> bool
        ensures { result ≡ has_room (contents_of self.now) entry }
    {
        match entry {
            Entry::Cluster(_) => self.clusters.len() < 8,
            Entry::Resource(_) => self.resources.len() < 16,
            Entry::Task(_) => self.tasks.len() < 64,
            Entry::Length {
                task: _,
                resource: _,
                ticks: _,
            } => true,
        }
    }

    // Whether an entry may be added, or the first question answered no.
    fn judge(&self, entry: Entry) -> Result<(), Refusal>
        ensures { first_no (entry_questions (contents_of self.now) entry) ≡ elim result [ Ok done ↦ None | Err why ↦ Some (number why) ] }
    {
        if !self.in_order(entry) {
            return Err(Refusal::Order);
        }
        if !self.in_limits(entry) {
            return Err(Refusal::Limits);
        }
        if !self.has_room(entry) {
            return Err(Refusal::Full);
        }
        Ok(())
    }

    // One function for each table: each asks for other facts, and one for all would need a tag that
    // names the table.
    pub(crate) fn store_cluster(&mut self, c: u8)
        requires { (1 ≤ c) × ((c ≤ 8) × ((length self.old.clusters < 8) × (length self.old.resources ≡ 0))) }
        ensures { contents_of self.new ≡ entered (contents_of self.old) (ClusterEntry c) }
    {
        self.clusters.push(c).unwrap();
    }

    pub(crate) fn store_resource(&mut self, resource: Resource)
        requires { (length self.old.resources < 16)
            × IsTrue (in_kind_limits (processors (contents_of self.old)) resource)
            × IsTrue (none_later self.old.resources resource) }
        ensures { contents_of self.new ≡ entered (contents_of self.old) (ResourceEntry resource) }
    {
        self.resources.push(resource);
    }

    pub(crate) fn store_task(&mut self, g: u8)
        requires { (g < length self.old.clusters) × (length self.old.tasks < 64) }
        ensures { contents_of self.new ≡ entered (contents_of self.old) (TaskEntry g) }
    {
        self.tasks.push(g).unwrap();
    }

    fn store_length(&mut self, task: usize, resource: usize, ticks: u16)
        requires { (task < length self.old.tasks) × ((resource < length self.old.resources) × ((1 ≤ ticks) × ((ticks ≤ 10000) × (self.old.lengths_end ≤ task * 16 + resource)))) }
        ensures { contents_of self.new ≡ entered (contents_of self.old) (LengthEntry task resource ticks) }
    {
        let place = task * 16 + resource;
        self.lengths[place] = ticks;
        self.lengths_end = place + 1;
    }

    // Puts an entry that passed its questions at the end of its table.
    #[tactic(auto, using(crate::proofs::Adding::passes, crate::proofs::Grid::above_behind, crate::proofs::Rows::processors_few, std::proofs::lemmas::Bool::Decides::nat_tests))]
    fn store(&mut self, entry: Entry)
        requires { first_no (entry_questions (contents_of self.old) entry) ≡ None }
        ensures { contents_of self.new ≡ entered (contents_of self.old) entry }
    {
        match entry {
            Entry::Cluster(c) => self.store_cluster(c as u8),
            Entry::Resource(resource) => self.store_resource(resource),
            Entry::Task(g) => self.store_task(g as u8),
            Entry::Length {
                task,
                resource,
                ticks,
            } => self.store_length(task as usize, resource as usize, ticks as u16),
        }
    }

    // Takes a line, or tells the first question answered no.
    #[tactic(auto, using(crate::proofs::Adding::form_refused))]
    pub(crate) fn take_line(&mut self, line: &[u8]) -> Result<(), Refusal>
        ensures { TakesLine line.now self.old result self.new }
    {
        let entry = entry_of(Item::try_from(line)?);
        self.judge(entry)?;
        self.store(entry);
        Ok(())
    }
}
