//! One read.
ghost use Rattle.std.specs.Prelude.{◌≡◌, ◌<◌, length, take, IfErr, IfOk, OnErr};
ghost use Rattle.std.specs.Io.{ReadsAtMost};
ghost use Rattle.std.specs.Io.KnownBytes.{Consumes, IsAtEnd, Keeps};
ghost use Rattle.dry_run.specs.Played.{NotInterrupted};

use crate::tries::{TRIES, too_many_tries, unless_interrupted};
use std::io;
use std::io::Read;

// Reads the next bytes of an input, as many as one read gives: none at its end. An interrupted
// read is tried again.
pub(crate) fn read_piece<R: Read>(reader: &mut R, piece: &mut [u8]) -> io::Result<usize>
    ensures bound { ReadsAtMost result piece.new }
    ensures ok { IfOk result
        (λ n. Consumes (R.remaining reader.old) (R.remaining reader.new) (take n piece.new)) }
    ensures end { IfOk result
        (λ n. n ≡ 0 → 0 < length piece.old → IsAtEnd (R.remaining reader.new)) }
    ensures err { OnErr result (Keeps (R.remaining reader.old) (R.remaining reader.new)) }
    ensures retried { IfErr result NotInterrupted }
{
    for _ in 0..TRIES {
        if let Some(answer) = unless_interrupted(reader.read(piece)) {
            return answer;
        }
    }
    Err(too_many_tries())
}
