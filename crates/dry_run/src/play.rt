//! A dry run from any reader to any writer.
ghost use Rattle.std.specs.Prelude.{◌≡◌, ◌↔◌, ℕ, ◌<◌, ◌+◌, ◌*◌, ◌≤◌, true, false, List, length};
ghost use Rattle.std.specs.Prelude.{IfErr, IfOk, IsErr, IsTrue, OnErr, OnOk, vec_len};
ghost use Rattle.dry_run.specs.Fed.{Ends, Fed, Takes};
ghost use Rattle.dry_run.specs.Played.{Goes, Stops, Finishes, Breaks, Played, PlayedInPart};
ghost use Rattle.dry_run.specs.Played.{NotInterrupted};
ghost use Rattle.dry_run.specs.Plays.{SettledBy};
ghost use Rattle.dry_run.specs.Said.{GoesOn};

use crate::read::read_piece;
use crate::run::{DryRun, Phase};
use crate::tries::{TRIES, too_many_tries};
use crate::write::write_front;
use std::alloc::Global;
use std::io;
use std::io::{Read, Write};

// Takes a piece of the input where there is room for what is printed of it.
fn take_piece(run: &mut DryRun, piece: &[u8], out: &mut [u8]) -> usize
    requires { 10 * length piece.now + 1040 ≤ length out.old }
    ensures takes { Takes run.old run.new piece.now out.old 0 result out.new }
    ensures within { result ≤ length out.new }
{
    match run.feed(piece, out) {
        Ok(size) => size,
        Err(_) => unreachable(),
    }
}

// Takes a piece of the input, and writes what is printed of it.
fn play_piece<W: Write>(
    run: &mut DryRun,
    piece: &[u8],
    out: &mut [u8],
    writer: &mut W,
) -> io::Result<()>
    requires { 10 * length piece.now + 1040 ≤ length out.old }
    ensures ok { OnOk result
        (Goes run.old run.new piece.now (W.contents writer.old) (W.contents writer.new)) }
    ensures err { OnErr result
        (Stops run.old run.new piece.now (W.contents writer.old) (W.contents writer.new)) }
    ensures retried { IfErr result NotInterrupted }
{
    let size = take_piece(run, piece, out);
    write_front(writer, out, size)
}

// Ends the input where there is room for what is then printed.
fn take_end(run: &DryRun, out: &mut [u8]) -> usize
    requires { 64 ≤ length out.old }
    ensures ends { Ends run.now out.old result out.new }
    ensures within { result ≤ length out.new }
{
    match run.end(out) {
        Ok(last) => last,
        Err(_) => unreachable(),
    }
}

// Ends the input, and writes what is then printed.
fn play_end<W: Write>(run: &DryRun, out: &mut [u8], writer: &mut W) -> io::Result<()>
    requires { 64 ≤ length out.old }
    ensures ok { OnOk result
        (Finishes run.now (W.contents writer.old) (W.contents writer.new)) }
    ensures err { OnErr result
        (Breaks run.now (W.contents writer.old) (W.contents writer.new)) }
    ensures retried { IfErr result NotInterrupted }
{
    let size = take_end(run, out);
    write_front(writer, out, size)
}

// Whether a read of so many bytes found the end of the input.
fn is_end(read: usize) -> bool
    ensures { IsTrue result ↔ (read ≡ 0) }
{
    read == 0
}

// Whether nothing more can be printed, however the input goes on.
fn is_over(run: &DryRun) -> bool
    ensures over { result ≡ true
        → (input out : List ℕ) → Fed run.now input out → SettledBy input out }
    ensures goes_on { result ≡ false
        → (input out : List ℕ) → Fed run.now input out → GoesOn input }
{
    run.phase() == Phase::Over
}

// The tries ran out before the input did.
fn out_of_tries() -> io::Result<()>
    ensures failed { IsErr result }
    ensures retried { IfErr result NotInterrupted }
{
    Err(too_many_tries())
}

// The same in memory that is handed in: room for a piece of the input, and for what is printed
// of it.
fn play_pieces<R: Read, W: Write>(
    reader: &mut R,
    writer: &mut W,
    room: &mut [u8],
    out: &mut [u8],
) -> io::Result<()>
    requires { (0 < length room.old) × (length room.old ≤ 4096)
        × (10 * length room.old + 1040 ≤ length out.old) }
    ensures ok { OnOk result (Played (R.remaining reader.old) (R.remaining reader.new)
        (W.contents writer.old) (W.contents writer.new)) }
    ensures err { OnErr result (PlayedInPart (R.remaining reader.old) (R.remaining reader.new)
        (W.contents writer.old) (W.contents writer.new)) }
    ensures retried { IfErr result NotInterrupted }
{
    let mut run = DryRun::new();
    // a `for`, since a `loop` wants a measure, and how long the input is nobody knows
    for _ in 0..TRIES {
        let n = read_piece(reader, room)?;
        if is_end(n) {
            return play_end(&run, out, writer);
        }
        play_piece(&mut run, &room[..n], out, writer)?;
        if is_over(&run) {
            return Ok(());
        }
    }
    out_of_tries()
}

// So many bytes of memory.
fn memory(alloc: Global, size: usize) -> io::Result<Vec<u8>>
    ensures size { IfOk result (λ bytes. vec_len bytes ≡ size) }
    ensures retried { IfErr result NotInterrupted }
{
    Ok(vec![in alloc; 0u8; size]?)
}

/// Reads an input, and writes what is printed of it, each piece as soon as it is read: to its end,
/// or up to the piece in which its plan is refused, since nothing is printed of what follows that.
/// It has two buffers of its own, and does not flush the writer.
///
/// Where it ends well, what the writer holds more is what is printed of all that the reader had,
/// and nothing else could be: all of that was read, or what was read settles what is printed,
/// whatever comes behind. Where it ends in an error, what the writer holds more is the front of
/// whatever could be printed of all that the reader had. In both cases no more is read than is
/// needed, but for the rest of one piece, of 4,096 bytes at most.
///
/// An interrupted read or write is tried again, so no error is `Interrupted`. The first read or
/// write that fails otherwise ends it with its own error. A write that takes nothing is
/// `WriteZero`, want of memory for the buffers `OutOfMemory`, and a count of 2^64 - 1 tries that
/// runs out `TimedOut`.
pub fn play<R: Read, W: Write>(alloc: Global, reader: &mut R, writer: &mut W) -> io::Result<()>
    ensures ok { OnOk result (Played (R.remaining reader.old) (R.remaining reader.new)
        (W.contents writer.old) (W.contents writer.new)) }
    ensures err { OnErr result (PlayedInPart (R.remaining reader.old) (R.remaining reader.new)
        (W.contents writer.old) (W.contents writer.new)) }
    ensures retried { IfErr result NotInterrupted }
{
    let mut room = memory(alloc, 4096)?;
    let mut out = memory(alloc, 42000)?;
    play_pieces(reader, writer, room.as_mut_slice(), out.as_mut_slice())
}
