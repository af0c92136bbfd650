ghost use Rattle.std.specs.Prelude.{◌≡◌, ◌≤◌, [], ◌∷◌, length};
ghost use Rattle.text.specs.Memory.{Writes};
ghost use Rattle.item.specs.declared.item.Item.TheVariants.{Length};
ghost use Rattle.text.specs.Fields.{line_text};
ghost use Rattle.text.specs.declared.field.Field.TheVariants.{Number};
ghost use Rattle.item.specs.Lines.{item_text, ReadsBack};

use crate::ending::Ending;
use crate::item::Item;
use byte_vec::byte_vec::ByteVec;
use text::memory::write_bytes;
use text::refusal::Refusal;

// A letter with its comma, in front of a line's end.
fn prepend_letter(line: &mut Ending, letter: u8)
    requires { length line.old ≤ 38 }
    ensures { line.new ≡ letter ∷ (44 ∷ line.old) }
{
    line.push_front(b',');
    line.push_front(letter);
}

// A letter with its comma and a number, in front of the newline.
fn prepend_one(line: &mut Ending, letter: u8, n: u32)
    requires { line.old ≡ 10 ∷ [] }
    ensures text { line.new ≡ line_text (letter, Number n ∷ []) }
    ensures few { length line.new ≤ 13 }
{
    line.number(n);
    prepend_letter(line, letter);
}

// What the line of a length has in front of the newline.
fn prepend_length(line: &mut Ending, task: u32, resource: u32, ticks: u32)
    requires { line.old ≡ 10 ∷ [] }
    ensures text { line.new ≡ item_text (Length task resource ticks) }
    ensures few { length line.new ≤ 35 }
{
    line.number(ticks);
    line.push_front(b',');
    line.number(resource);
    line.push_front(b',');
    line.number(task);
    prepend_letter(line, b'L');
}

// What the line of an item has in front of the newline.
fn prepend(line: &mut Ending, item: Item)
    requires { line.old ≡ 10 ∷ [] }
    ensures text { line.new ≡ item_text item }
    ensures few { length line.new ≤ 35 }
{
    match item {
        Item::Cluster(c) => prepend_one(line, b'C', c),
        Item::Slots(k) => prepend_one(line, b'S', k),
        Item::ReaderWriter => line.push_front(b'W'),
        Item::Task(g) => prepend_one(line, b'T', g),
        Item::Length {
            task,
            resource,
            ticks,
        } => prepend_length(line, task, resource, ticks),
    }
}

// The line of an item, built from its newline to its letter.
fn line(item: Item) -> ByteVec<40>
    ensures text { result ≡ item_text item }
    ensures few { length (item_text item) ≤ 35 }
{
    let mut ending = Ending::new();
    prepend(&mut ending, item);
    let mut line = ByteVec::new();
    line.extend_from_slice(ending.as_slice()).unwrap();
    line
}

// Puts the line of an item into memory. The public call says besides that such a line reads back.
fn write_line(item: Item, out: &mut [u8], at: usize) -> Result<usize, Refusal>
    ensures { Writes out.old at (item_text item) result out.new }
{
    write_bytes(out, at, line(item).as_slice())
}

impl Item {
    /// The line of an item, with its newline: at most 35 bytes, since a number here may have ten
    /// digits.
    pub fn line(self) -> ByteVec<40>
        ensures text { result ≡ item_text self }
        ensures few { length result ≤ 35 }
    {
        line(self)
    }

    /// How many bytes the line of an item has, with its newline.
    pub fn size(self) -> usize
        ensures { result ≡ length (item_text self) }
    {
        self.line().len()
    }

    /// Writes an item's line, with its newline, at a place, and answers the place behind it. Where
    /// it does not fit, nothing is written and the refusal is 23.
    // Memory and place stay apart: a struct of both would promise in each contract and loop that it
    // still lends the same memory.
    #[tactic(auto, using(crate::proofs::Lines::read_back))]
    pub fn write(self, out: &mut [u8], at: usize) -> Result<usize, Refusal>
        ensures writes { Writes out.old at (item_text self) result out.new }
        ensures back { ReadsBack self }
    {
        write_line(self, out, at)
    }
}
