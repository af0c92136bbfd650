//! Plays each listing that an argument names: data NAME.in must print NAME.out, in whatever pieces
//! it is read and written, and what is written ahead of an error is the front of it.
#![tactic(auto)]

ghost use Rattle.std.specs.Prelude.{◌≡◌, ◌↔◌, IfOk, IsTrue, []};
ghost use Rattle.dry_run.specs.Plays.{Printed};

use dry_run::play::play;
use std::alloc::Global;
use std::io::ErrorKind;
use std::{env, fs, io};

mod reader;
mod whole;
mod writer;

use reader::PieceReader;
use whole::gives_whole;
use writer::PieceWriter;

// A reader that gives at most `more` bytes and one more at a time.
fn reader_of(input: &[u8], more: usize) -> PieceReader<'_>
    ensures { result.rest.now ≡ input.now }
{
    PieceReader {
        rest: input,
        more,
        interrupts: false,
        interrupted: false,
        fails_at: None,
        failed: false,
    }
}

// A writer that takes all that it is given.
fn writer_in(heap: Global) -> PieceWriter
    ensures { result.taken.items ≡ [] }
{
    PieceWriter {
        taken: Vec::new(heap),
        more: usize::MAX,
        interrupts: false,
        interrupted: false,
        room: usize::MAX,
        fails: false,
    }
}

// Whether what a reader gives is what must be printed, as a writer takes it.
fn gives(
    heap: Global,
    mut reader: PieceReader<'_>,
    mut writer: PieceWriter,
    wanted: &[u8],
) -> io::Result<bool>
    requires { writer.taken.items ≡ [] }
    ensures { IfOk result (λ same. IsTrue same ↔ Printed reader.entry.rest.now wanted.now) }
{
    play(heap, &mut reader, &mut writer)?;
    Ok(writer.taken.as_slice() == wanted)
}

// Whether it ends in an error of this kind, with the front of what must be printed written, and
// how much of it.
fn breaks(
    heap: Global,
    mut reader: PieceReader<'_>,
    mut writer: PieceWriter,
    wanted: &[u8],
    kind: ErrorKind,
) -> Option<usize> {
    match play(heap, &mut reader, &mut writer) {
        Err(e) if e.kind() == kind && wanted.starts_with(writer.taken.as_slice()) => {
            Some(writer.taken.len())
        }
        _ => None,
    }
}

// The same of an input in pieces of at most `more` bytes and one more.
fn gives_in_pieces(heap: Global, input: &[u8], more: usize, wanted: &[u8]) -> io::Result<bool>
    ensures { IfOk result (λ same. IsTrue same ↔ Printed input.now wanted.now) }
{
    gives(heap, reader_of(input, more), writer_in(heap), wanted)
}

// Whether an input prints what it must: in pieces of 1 to 19 bytes, in pieces that are interrupted
// and written a few bytes at a time, in pieces as large as the loop takes them, and at once.
fn prints(heap: Global, input: &[u8], wanted: &[u8]) -> io::Result<bool>
    ensures { IfOk result (λ same. IsTrue same ↔ Printed input.now wanted.now) }
{
    for more in 0..19usize {
        if !gives_in_pieces(heap, input, more, wanted)? {
            return Ok(false);
        }
    }
    let mut pieces = reader_of(input, 12);
    pieces.interrupts = true;
    let mut taken = writer_in(heap);
    taken.more = 2;
    taken.interrupts = true;
    if !gives(heap, pieces, taken, wanted)? {
        return Ok(false);
    }
    if !gives_in_pieces(heap, input, input.len(), wanted)? {
        return Ok(false);
    }
    gives_whole(heap, input, wanted)
}

// Whether a reader that fails in mid-stream ends it in that error, with the front of what must be
// printed written; or is not read so far, since the plan is refused before, with all of it written.
fn breaks_off(heap: Global, mut reader: PieceReader<'_>, wanted: &[u8]) -> bool {
    let mut writer = writer_in(heap);
    match play(heap, &mut reader, &mut writer) {
        Ok(()) => {
            !reader.failed && wanted.starts_with(b"plan,no,") && writer.taken.as_slice() == wanted
        }
        Err(e) => {
            e.kind() == ErrorKind::ConnectionReset && wanted.starts_with(writer.taken.as_slice())
        }
    }
}

// Whether a reader that fails in mid-stream, a writer that does, and one that then takes nothing,
// end it in that error, with the front of what must be printed written: of the writers the half
// that they took. A reader does not fail where its plan is refused before.
fn stops(heap: Global, input: &[u8], wanted: &[u8]) -> bool {
    let half = wanted.len() / 2;
    let mut pieces = reader_of(input, 6);
    pieces.fails_at = Some(input.len() / 2);
    let mut full = writer_in(heap);
    full.room = half;
    full.fails = true;
    let mut closed = writer_in(heap);
    closed.room = half;
    breaks_off(heap, pieces, wanted)
        && breaks(
            heap,
            reader_of(input, 6),
            full,
            wanted,
            ErrorKind::StorageFull,
        ) == Some(half)
        && breaks(
            heap,
            reader_of(input, 6),
            closed,
            wanted,
            ErrorKind::WriteZero,
        ) == Some(half)
}

// Whether a listing gives what it must.
fn listing(rt: &HostRuntime, name: &str) -> io::Result<bool> {
    let heap = rt.alloc();
    let input = fs::read(rt, format!(in heap; "{name}.in")?.as_str())?;
    let wanted = fs::read(rt, format!(in heap; "{name}.out")?.as_str())?;
    Ok(
        prints(heap, input.as_slice(), wanted.as_slice())?
            && stops(heap, input.as_slice(), wanted.as_slice()),
    )
}

fn main(rt: HostRuntime) -> io::Result<()> {
    for name in env::args(&rt)?.skip(1) {
        let same = listing(&rt, name.as_str())?;
        println!(rt; "{name} {same}")?;
    }
    Ok(())
}
