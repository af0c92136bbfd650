/// A worked example, by name. A bank's example is worked at one resource from nobody active on.
/// What is answered and listed stands in specs/Examples.antt.
#[derive(Debug, Clone, Copy, PartialEq, Eq)]
pub enum Example {
    /// A plan of no lines.
    NoLines,
    /// A plan whose only line has no newline.
    NoNewline,
    /// A cluster of eight processors as the first line.
    EightProcessors,
    /// A cluster of nine.
    NineProcessors,
    /// A number with a zero before it.
    LeadingZero,
    /// Slots for two holders with five seats: five enter.
    SlotsEntered,
    /// The same, and then the first of them leaves.
    SlotsLeft,
    /// A reader-writer resource with three seats: a read, a write and a read enter.
    ReadsAndWrite,
    /// The same, and then the first read leaves.
    ReadLeft,
    /// A reader-writer resource with three seats: three writes enter.
    ThreeWrites,
    /// Slots for one holder with two seats: the requests of the worked run, issued and given back.
    WorkedRun,
}
