//! A dry run of an input that is fed at once, in memory that is just enough.
ghost use Rattle.std.specs.Prelude.{◌≡◌, ◌↔◌, ◌++◌, ◌+◌, ◌*◌, ◌≤◌, length, true, IfOk, IfSome, IsTrue, vec_len};
ghost use Rattle.dry_run.specs.Fed.{Ends, Takes};
ghost use Rattle.dry_run.specs.Plays.{Printed};

use dry_run::run::DryRun;
use std::alloc::Global;
use std::io;
use std::io::{Error, ErrorKind};
use text::refusal::Refusal;

// How much memory is just enough for an input of a size, if there can be so much.
fn room_for(size: usize) -> Option<usize>
    ensures { IfSome result (λ n. n ≡ 10 * size + 1040) }
{
    size.checked_mul(10)?.checked_add(1040)
}

// Memory that is just enough for an input.
fn memory_for(heap: Global, input: &[u8]) -> io::Result<Vec<u8>>
    ensures { IfOk result (λ bytes. vec_len bytes ≡ 10 * length input.now + 1040) }
{
    match room_for(input.len()) {
        Some(size) => Ok(vec![in heap; 0u8; size]?),
        None => Err(Error::from(ErrorKind::OutOfMemory)),
    }
}

// Whether an input is refused where its memory lacks one byte. It is, and nothing changes.
fn lacks_room(run: &mut DryRun, input: &[u8], out: &mut [u8]) -> bool
    requires { length out.old + 1 ≡ 10 * length input.now + 1040 }
    ensures refused { result ≡ true }
    ensures same { run.new ≡ run.old }
    ensures kept { out.new ≡ out.old }
{
    run.feed(input, out) == Err(Refusal::Memory)
}

// The same of the end of an input.
fn lacks_end(run: &DryRun, out: &mut [u8]) -> bool
    requires { length out.old ≡ 63 }
    ensures { result ≡ true }
{
    run.end(out) == Err(Refusal::Memory)
}

// Takes all of an input where there is just enough memory.
fn feed_whole(run: &mut DryRun, input: &[u8], out: &mut [u8]) -> usize
    requires { length out.old ≡ 10 * length input.now + 1040 }
    ensures takes { Takes run.old run.new input.now out.old 0 result out.new }
    ensures within { result ≤ length out.new }
{
    match run.feed(input, out) {
        Ok(size) => size,
        Err(_) => unreachable(),
    }
}

// The same of the end of an input.
fn end_whole(run: &DryRun, out: &mut [u8]) -> usize
    requires { length out.old ≡ 64 }
    ensures ends { Ends run.now out.old result out.new }
    ensures within { result ≤ length out.new }
{
    match run.end(out) {
        Ok(size) => size,
        Err(_) => unreachable(),
    }
}

// Some bytes, and others behind them.
fn joined(heap: Global, front: &[u8], back: &[u8]) -> io::Result<Vec<u8>>
    ensures { IfOk result (λ bytes. bytes.items ≡ front.now ++ back.now) }
{
    let mut bytes = Vec::new(heap);
    bytes.extend_from_slice(front)?;
    bytes.extend_from_slice(back)?;
    Ok(bytes)
}

// Whether an input prints what it must where it is fed at once, and ended, in memory that is just
// enough for each; and whether each is refused with one byte less, and then goes on as if nothing
// had been asked.
fn gives_in(
    heap: Global,
    input: &[u8],
    wanted: &[u8],
    out: &mut [u8],
    last: &mut [u8],
) -> io::Result<bool>
    requires { (length out.old ≡ 10 * length input.now + 1040) × (length last.old ≡ 64) }
    ensures { IfOk result (λ same. IsTrue same ↔ Printed input.now wanted.now) }
{
    let mut run = DryRun::new();
    let less = out.len() - 1;
    if !lacks_room(&mut run, input, &mut out[..less]) {
        return Ok(false);
    }
    let size = feed_whole(&mut run, input, out);
    let less = last.len() - 1;
    if !lacks_end(&run, &mut last[..less]) {
        return Ok(false);
    }
    let end = end_whole(&run, last);
    let printed = joined(heap, &out[..size], &last[..end])?;
    Ok(printed.as_slice() == wanted)
}

// The same in memory of its own.
pub(crate) fn gives_whole(heap: Global, input: &[u8], wanted: &[u8]) -> io::Result<bool>
    ensures { IfOk result (λ same. IsTrue same ↔ Printed input.now wanted.now) }
{
    let mut out = memory_for(heap, input)?;
    let mut last = [0u8; 64];
    gives_in(heap, input, wanted, out.as_mut_slice(), &mut last)
}
