ghost use Rattle.std.specs.Prelude.{◌≡◌, ◌≤◌, length, OnOk};
ghost use Rattle.std.specs.Result.{result_ok};
ghost use Rattle.event.specs.Lines.{mode_of, event_of_fields, read_event, IsLineOf, ReadsEvent};

use bank::request::Mode;
use rules::call::Call;
use text::field::{FIELDS, Field, read_fields};
use text::refusal::Refusal;

/// The most bytes of an event line, its newline included.
pub const EVENT_BYTES: usize = 16;

// The mode that a letter is, if it is one.
fn letter_mode(letter: u8) -> Option<Mode>
    ensures { result ≡ mode_of letter }
{
    match letter as char {
        'W' => Some(Mode::Write),
        'R' => Some(Mode::Read),
        _ => None,
    }
}

// The call that a letter and fields are.
// The fields stand first: their number is known where the line ends, and the letter is told then.
#[tactic(auto, using(std::proofs::lemmas::Bool::Decides::nat_tests))]
#[inline(always)]
fn form(letter: u8, fields: &[Field]) -> Option<Call>
    ensures { result ≡ event_of_fields (letter, fields.now) }
{
    match (fields, letter as char) {
        ([], 'K') => Some(Call::Tick),
        ([Field::Number(task)], 'N') => Some(Call::Release(*task)),
        ([Field::Number(task)], 'G') => Some(Call::Give(*task)),
        ([Field::Number(task)], 'F') => Some(Call::Finish(*task)),
        (
            [
                Field::Number(task),
                Field::Number(resource),
                Field::Letter(mode),
            ],
            'A',
        ) => {
            let mode = letter_mode(*mode)?;
            Some(Call::Ask {
                task: *task,
                resource: *resource,
                mode,
            })
        }
        _ => None,
    }
}

// The call that a line is, if it has one of the five forms.
#[inline(always)]
fn parse(line: &[u8]) -> Option<Call>
    ensures { result ≡ read_event line.now }
{
    let mut fields = [Field::Number(0); FIELDS];
    let (letter, count) = read_fields(line, &mut fields)?;
    form(letter, &fields[..count])
}

/// The call that a line with its newline is. A line that has none of the five forms is refused by
/// 21.
#[tactic(auto, using(crate::proofs::Lines::is_line_of, crate::proofs::Lines::few_bytes))]
#[inline(always)]
pub fn read_call(line: &[u8]) -> Result<Call, Refusal>
    ensures reads { ReadsEvent line.now result }
    ensures image { IsLineOf line.now (result_ok result) }
    ensures few { OnOk result (length line.now ≤ EVENT_BYTES) }
{
    parse(line).ok_or(Refusal::NotEvent)
}
