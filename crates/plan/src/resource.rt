ghost use Rattle.std.specs.Prelude.{◌≡◌};
ghost use Rattle.plan.specs.Kinds.{holders_of, in_kind_limits, kind_rank, knows_reads, resource_item};

use item::item::Item;

/// A resource of a plan, by its kind.
#[derive(Clone, Copy, Debug, PartialEq, Eq)]
pub enum Resource {
    /// For up to k holders at once.
    Slots(u32),
    /// For one writer, or for any number of readers.
    ReaderWriter,
}

impl Resource {
    /// Its item in a plan's text.
    pub fn item(self) -> Item
        ensures { result ≡ resource_item self }
    {
        match self {
            Resource::Slots(k) => Item::Slots(k),
            Resource::ReaderWriter => Item::ReaderWriter,
        }
    }

    /// The most that hold it at once in mode W.
    pub fn holders(self) -> u32
        ensures { result ≡ holders_of self }
    {
        match self {
            Resource::Slots(k) => k,
            Resource::ReaderWriter => 1,
        }
    }

    /// Whether it knows mode R.
    pub fn knows_reads(self) -> bool
        ensures { result ≡ knows_reads self }
    {
        match self {
            Resource::Slots(_) => false,
            Resource::ReaderWriter => true,
        }
    }

    // The place of its kind in the order of the lines.
    pub(crate) fn rank(self) -> u32
        ensures { result ≡ kind_rank self }
    {
        match self {
            Resource::Slots(_) => 0,
            Resource::ReaderWriter => 1,
        }
    }

    // Whether its numbers are in the limits of its kind, in a plan of so many processors.
    pub(crate) fn in_limits(self, processors: u32) -> bool
        ensures { result ≡ in_kind_limits processors self }
    {
        match self {
            Resource::Slots(k) => (1..=processors).contains(&k),
            Resource::ReaderWriter => true,
        }
    }
}
