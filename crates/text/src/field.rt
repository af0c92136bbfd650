ghost use Rattle.std.specs.Prelude.{◌≡◌, ◌≤◌, take, option_map, IfSome};
ghost use Rattle.text.specs.Fields.{read_field, is_newline, fields_of, HasFields};

use crate::number::read_number;

/// A field of a line, behind its comma.
#[derive(Clone, Copy, Debug, PartialEq, Eq)]
pub enum Field {
    /// A number of at most five digits, without a zero in front.
    Number(u32),
    /// A letter from `A` to `Z`.
    Letter(u8),
}

/// The most fields of a line.
pub const FIELDS: usize = 4;

// A comma and the field behind it, and the rest of the line.
#[inline(always)]
fn read_field(s: &[u8]) -> Option<(Field, &[u8])>
    ensures { read_field s.now ≡ option_map (λ p. (p.0, p.1.now)) result }
{
    match s {
        [b',', letter @ b'A'..=b'Z', rest @ ..] => Some((Field::Letter(*letter), rest)),
        [b',', rest @ ..] => {
            let (n, behind) = read_number(rest)?;
            Some((Field::Number(n), behind))
        }
        _ => None,
    }
}

// Whether a newline is all that is left.
#[inline(always)]
fn is_newline(s: &[u8]) -> bool
    ensures { result ≡ is_newline s.now }
{
    matches!(s, [b'\n'])
}

/// The letter of a line and how many fields it has, which are put at the start of the memory that
/// is lent. Nothing where the line has no such form; what the memory then has is left open.
// The memory is lent, and what reads a line is inlined, so that no line pays for fields that are
// moved.
#[inline(always)]
#[tactic(auto, using(crate::proofs::Images::has_fields))]
pub fn read_fields(line: &[u8], fields: &mut [Field; FIELDS]) -> Option<(u8, usize)>
    ensures read { fields_of line.now ≡ option_map (λ p. (p.0, take p.1 fields.new)) result }
    ensures within { IfSome result (λ p. p.1 ≤ FIELDS) }
    ensures image { HasFields line.now (fields_of line.now) }
{
    let (letter, mut rest) = line.split_first()?;
    // A letter alone is told before the loop, so that it pays for no field.
    if is_newline(rest) {
        return Some((*letter, 0));
    }
    let mut count = 0;
    while !is_newline(rest) {
        if count == FIELDS {
            return None;
        }
        let (field, behind) = read_field(rest)?;
        fields[count] = field;
        count += 1;
        rest = behind;
    }
    Some((*letter, count))
}
