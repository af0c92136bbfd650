ghost use Rattle.std.specs.Prelude.{◌≤◌, length};
ghost use Rattle.text.specs.Memory.{Pushes};
ghost use Rattle.limits.specs.declared.size.TheConstants.{LIMITS_BYTES};
ghost use Rattle.limits.specs.Lines.{read_field, limit_line};

use crate::size::LIMITS_BYTES;
use byte_vec::byte_vec::ByteVec;
use text::number::push_field;
use text::refusal::Refusal;

// The last field of a line and its newline.
fn push_read(text: &mut ByteVec<LIMITS_BYTES>, read: Option<u64>) -> Result<(), Refusal>
    ensures { Pushes LIMITS_BYTES text.old (read_field read) result text.new }
{
    match read {
        Some(n) => push_field(text, n, b"\n"),
        None => Ok(text.extend_from_slice(b"-\n")?),
    }
}

// A line, as far as there is room.
pub(crate) fn push_line(
    text: &mut ByteVec<LIMITS_BYTES>,
    resource: u32,
    write: u64,
    read: Option<u64>,
) -> Result<(), Refusal>
    ensures { Pushes LIMITS_BYTES text.old (limit_line resource write read) result text.new }
{
    text.extend_from_slice(b"B,")?;
    push_field(text, resource as u64, b",")?;
    push_field(text, write, b",")?;
    push_read(text, read)
}
