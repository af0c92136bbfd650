ghost use Rattle.std.specs.Prelude.{◌≡◌, ◌≤◌, length};
ghost use Rattle.text.specs.Memory.{Pushes};
ghost use Rattle.text.specs.Refusals.{number};
ghost use Rattle.event.specs.Laid.{Laid};
ghost use Rattle.dry_run.specs.Said.{refused_text};

use byte_vec::byte_vec::ByteVec;
use plan::draft::Refused;
use text::memory::write_bytes;
use text::number::push_field;
use text::refusal::Refusal;

// The line of a refused plan, as far as there is room.
#[tactic(auto, using(crate::proofs::Printed::refused_size))]
fn push_refused(line: &mut ByteVec<64>, question: u32, number: usize) -> Result<(), Refusal>
    ensures text { Pushes 64 line.old (refused_text question number) result line.new }
    ensures few { length (refused_text question number) ≤ 50 }
{
    line.extend_from_slice(b"plan,no,")?;
    push_field(line, question as u64, b",")?;
    push_field(line, number as u64, b"\n")
}

// The line of a refused plan, with its newline.
fn line_of(why: Refused) -> ByteVec<64>
    ensures text { result ≡ refused_text (number why.refusal) why.line }
    ensures few { length result ≤ 50 }
{
    let mut line = ByteVec::new();
    push_refused(&mut line, why.refusal.number(), why.line).unwrap();
    line
}

/// The line of a refused plan.
pub fn refused_line(why: Refused) -> ByteVec<64>
    ensures text { result ≡ refused_text (number why.refusal) why.line }
    ensures few { length result ≤ 50 }
{
    line_of(why)
}

// Lays the line of a refused plan at the start of memory, and answers its size.
pub(crate) fn lay_refused(out: &mut [u8], why: Refused) -> usize
    requires { 50 ≤ length out.old }
    ensures laid { Laid out.old 0 (refused_text (number why.refusal) why.line) result out.new }
    ensures few { result ≤ 50 }
{
    write_bytes(out, 0, refused_line(why).as_slice()).unwrap()
}

// Lays the line of a plan that no empty line ends.
pub(crate) fn lay_no_end(out: &mut [u8]) -> usize
    requires { 50 ≤ length out.old }
    ensures laid { Laid out.old 0 (refused_text 22 0) result out.new }
    ensures few { result ≤ 50 }
{
    let why = Refused {
        refusal: Refusal::NoEnd,
        line: 0,
    };
    lay_refused(out, why)
}
