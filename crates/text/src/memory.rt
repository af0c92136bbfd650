ghost use Rattle.std.specs.Prelude.{◌≡◌, ◌+◌, ◌≤◌, length};
ghost use Rattle.text.specs.Memory.{overlay, Writes};

use crate::refusal::Refusal;

// Puts bytes at a place where they fit, and answers the place behind them.
#[tactic(auto, using(crate::proofs::Writes::overlay_part))]
pub(crate) fn put_bytes(out: &mut [u8], at: usize, bytes: &[u8]) -> usize
    requires { at + length bytes.now ≤ length out.old }
    ensures end { result ≡ at + length bytes.now }
    ensures text { out.new ≡ overlay out.old at bytes.now }
{
    let end = at + bytes.len();
    out[at..end].copy_from_slice(bytes);
    end
}

/// Writes bytes at a place, and answers the place behind them.
// Memory and place are two arguments wherever something is written: a struct of both would have to
// say in each contract and loop that it still lends the same memory.
pub fn write_bytes(out: &mut [u8], at: usize, bytes: &[u8]) -> Result<usize, Refusal>
    ensures { Writes out.old at bytes.now result out.new }
{
    if out.len() < at || out.len() - at < bytes.len() {
        return Err(Refusal::Memory);
    }
    Ok(put_bytes(out, at, bytes))
}
