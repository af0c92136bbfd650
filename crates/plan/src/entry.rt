ghost use Rattle.std.specs.Prelude.{◌≡◌};
ghost use Rattle.plan.specs.Contents.{entry_of};

use crate::resource::Resource;
use item::item::Item;

/// What an item of a plan's text puts into the tables.
#[derive(Clone, Copy, Debug, PartialEq, Eq)]
pub enum Entry {
    /// A cluster of so many processors.
    Cluster(u32),
    /// A resource, of whatever kind.
    Resource(Resource),
    /// A task of a cluster.
    Task(u32),
    /// The length of a task at a resource.
    Length {
        /// The number of the task, from 0.
        task: u32,
        /// The number of the resource, from 0.
        resource: u32,
        /// In ticks.
        ticks: u32,
    },
}

// The entry of an item.
pub(crate) fn entry_of(item: Item) -> Entry
    ensures { result ≡ entry_of item }
{
    match item {
        Item::Cluster(c) => Entry::Cluster(c),
        Item::Slots(k) => Entry::Resource(Resource::Slots(k)),
        Item::ReaderWriter => Entry::Resource(Resource::ReaderWriter),
        Item::Task(g) => Entry::Task(g),
        Item::Length {
            task,
            resource,
            ticks,
        } => Entry::Length {
            task,
            resource,
            ticks,
        },
    }
}
