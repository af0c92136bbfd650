ghost use Rattle.std.specs.Prelude.{◌≡◌};
ghost use Rattle.item.specs.Lines.{item_of, read_item, ReadsItem};

use crate::item::Item;
use text::field::{FIELDS, Field, read_fields};
use text::refusal::Refusal;

// The item that a letter and fields are.
// The fields stand first: their number is known where the line ends, and the letter is told then.
#[tactic(auto, using(std::proofs::lemmas::Bool::Decides::nat_tests))]
#[inline(always)]
fn form(letter: u8, fields: &[Field]) -> Option<Item>
    ensures { result ≡ item_of (letter, fields.now) }
{
    match (fields, letter as char) {
        ([], 'W') => Some(Item::ReaderWriter),
        ([Field::Number(c)], 'C') => Some(Item::Cluster(*c)),
        ([Field::Number(k)], 'S') => Some(Item::Slots(*k)),
        ([Field::Number(g)], 'T') => Some(Item::Task(*g)),
        (
            [
                Field::Number(task),
                Field::Number(resource),
                Field::Number(ticks),
            ],
            'L',
        ) => {
            Some(Item::Length {
                task: *task,
                resource: *resource,
                ticks: *ticks,
            })
        }
        _ => None,
    }
}

// The item that a line is, if it has one of the five forms.
#[inline(always)]
fn read_item(line: &[u8]) -> Option<Item>
    ensures { result ≡ read_item line.now }
{
    let mut fields = [Field::Number(0); FIELDS];
    let (letter, count) = read_fields(line, &mut fields)?;
    form(letter, &fields[..count])
}

impl TryFrom<&[u8]> for Item {
    type Error = Refusal;

    ghost try_from_gives = { λ line r. ReadsItem line.now r };

    fn try_from(line: &[u8]) -> Result<Item, Refusal> {
        Item::read(line)
    }
}

impl Item {
    /// The item that a line is, its newline included. A line of none of the five forms is refused.
    #[tactic(auto, using(crate::proofs::Lines::is_line_of))]
    #[inline(always)]
    pub fn read(line: &[u8]) -> Result<Item, Refusal>
        ensures { ReadsItem line.now result }
    {
        read_item(line).ok_or(Refusal::Form)
    }
}
