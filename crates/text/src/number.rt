ghost use Rattle.std.specs.Prelude.{◌≡◌, ◌+◌, ◌≤◌, ◌++◌, length, drop, Some, None, decimal};
ghost use Rattle.text.specs.Numbers.{read_number, IsWritten, ReadsBack};
ghost use Rattle.text.specs.Memory.{Writes, Appends};

use crate::memory::{put_bytes, write_bytes};
use crate::refusal::Refusal;
use byte_vec::byte_vec::ByteVec;
use itoa::Buffer;

/// The most digits of a number that is read.
pub const DIGITS: usize = 5;

/// Numbers that are read are below this one: it is the first that has a digit more.
pub const NUMBER_END: u32 = 100_000;

// The number at the head of a text, and how many digits it has.
#[tactic(auto, using(crate::proofs::Fronts::digit_range, std::proofs::lemmas::List::Sums::fold_more, std::proofs::lemmas::Grind::common_steps))]
#[inline(always)]
fn head_number(s: &[u8]) -> Option<(u32, usize)>
    ensures read { read_number s.now ≡ elim result [ None ↦ None | Some p ↦ Some (p.0, drop p.1 s.now) ] }
    ensures within { elim result [ None ↦ Unit {0} | Some p ↦ p.1 ≤ length s.now ] }
{
    let mut v: u32 = 0;
    let mut n = 0;
    while n < s.len() && s[n].is_ascii_digit() {
        // A number has at most DIGITS digits: of a longer run only one digit more is looked at.
        if n == DIGITS {
            return None;
        }
        v = 10 * v + (s[n] - b'0') as u32;
        n += 1;
    }
    if n == 0 || s[0] == b'0' && n != 1 {
        return None;
    }
    Some((v, n))
}

// The number at the head of a text, and the rest of the text, by the digits alone.
fn split_number(s: &[u8]) -> Option<(u32, &[u8])>
    ensures { read_number s.now ≡ elim result [ None ↦ None | Some p ↦ Some (p.0, p.1.now) ] }
{
    let (n, size) = head_number(s)?;
    let (_, rest) = s.split_at(size);
    Some((n, rest))
}

/// The number at the head of a text, and the rest of the text.
#[tactic(auto, using(crate::proofs::Numbers::is_written))]
pub fn read_number(s: &[u8]) -> Option<(u32, &[u8])>
    ensures read { read_number s.now ≡ elim result [ None ↦ None | Some p ↦ Some (p.0, p.1.now) ] }
    ensures written { IsWritten s.now (read_number s.now) }
{
    split_number(s)
}

/// How many bytes a number is written in.
pub fn number_size(n: u64) -> usize
    ensures { result ≡ length (decimal n) }
{
    Buffer::new().format(n).len()
}

// Writes a number's digits at a place.
fn put_number(out: &mut [u8], at: usize, n: u64) -> Result<usize, Refusal>
    ensures { Writes out.old at (decimal n) result out.new }
{
    write_bytes(out, at, Buffer::new().format(n).as_bytes())
}

/// Writes a number's digits at a place, and answers the place behind them.
#[tactic(auto, using(crate::proofs::Numbers::reads_back))]
pub fn write_number(out: &mut [u8], at: usize, n: u64) -> Result<usize, Refusal>
    ensures writes { Writes out.old at (decimal n) result out.new }
    ensures back { ReadsBack n }
{
    put_number(out, at, n)
}

/// Writes a number and the bytes behind it at a place, and answers the place behind them.
#[tactic(auto, using(crate::proofs::Writes::overlay_more, std::proofs::lemmas::Grind::common_steps))]
pub fn write_field(out: &mut [u8], at: usize, n: u64, behind: &[u8]) -> Result<usize, Refusal>
    ensures { Writes out.old at (decimal n ++ behind.now) result out.new }
{
    let mut buffer = Buffer::new();
    let digits = buffer.format(n).as_bytes();
    if out.len() < at || out.len() - at < digits.len() + behind.len() {
        return Err(Refusal::Memory);
    }
    let end = put_bytes(out, at, digits);
    Ok(put_bytes(out, end, behind))
}

/// Appends a number and the bytes behind it; where there is no room for all of it, nothing changes.
pub fn push_field<const N: usize>(
    line: &mut ByteVec<N>,
    n: u64,
    behind: &[u8],
) -> Result<(), Refusal>
    ensures { Appends N line.old (decimal n ++ behind.now) result line.new }
{
    let mut buffer = Buffer::new();
    let digits = buffer.format(n).as_bytes();
    if N - line.len() < digits.len() + behind.len() {
        return Err(Refusal::Memory);
    }
    line.extend_from_slice(digits)?;
    Ok(line.extend_from_slice(behind)?)
}
