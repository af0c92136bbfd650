//! Writing all of some bytes, where it is told how many were written before an error.
ghost use Rattle.std.specs.Prelude.{◌≤◌, length, take, IfErr, OnErr, OnOk};
ghost use Rattle.std.specs.Io.KnownBytes.{Appends};
ghost use Rattle.dry_run.specs.Played.{AppendsFront, NotInterrupted};

use crate::tries::{TRIES, too_many_tries, unless_interrupted};
use std::io;
use std::io::{Error, ErrorKind, Write};

// Writes all of these bytes, or those ahead of an error. An interrupted write is tried again.
fn write_bytes<W: Write>(writer: &mut W, bytes: &[u8]) -> io::Result<()>
    ensures ok { OnOk result (Appends (W.contents writer.old) (W.contents writer.new) bytes.now) }
    ensures err { OnErr result
        (AppendsFront (W.contents writer.old) (W.contents writer.new) bytes.now) }
    ensures retried { IfErr result NotInterrupted }
{
    let mut rest = bytes;
    for _ in 0..TRIES {
        if rest.is_empty() {
            return Ok(());
        }
        match unless_interrupted(writer.write(rest)) {
            Some(Ok(0)) => return Err(Error::from(ErrorKind::WriteZero)),
            Some(Ok(n)) => rest = &rest[n..],
            Some(Err(e)) => return Err(e),
            None => {}
        }
    }
    Err(too_many_tries())
}

// Writes the first bytes of memory.
pub(crate) fn write_front<W: Write>(writer: &mut W, memory: &[u8], size: usize) -> io::Result<()>
    requires { size ≤ length memory.now }
    ensures ok { OnOk result
        (Appends (W.contents writer.old) (W.contents writer.new) (take size memory.now)) }
    ensures err { OnErr result
        (AppendsFront (W.contents writer.old) (W.contents writer.new) (take size memory.now)) }
    ensures retried { IfErr result NotInterrupted }
{
    write_bytes(writer, &memory[..size])
}
