//! Reads and writes that are tried again.
ghost use Rattle.std.specs.Prelude.{◌≡◌, ◌↔◌, IfErr, IfNone, IfSome, IsErrAnd, IsTrue};
ghost use Rattle.std.specs.IoError.{error_kind};
ghost use Rattle.dry_run.specs.Played.{NotInterrupted};

use std::io;
use std::io::{Error, ErrorKind};

// No call may go on for ever, so each loop counts its tries.
pub(crate) const TRIES: u64 = u64::MAX;

pub(crate) fn too_many_tries() -> Error
    ensures { error_kind result ≡ ErrorKind.TimedOut }
{
    Error::from(ErrorKind::TimedOut)
}

// An interrupted read or write took nothing, and may be tried again.
fn is_interrupted(e: &Error) -> bool
    ensures { IsTrue result ↔ (error_kind e.now ≡ ErrorKind.Interrupted) }
{
    e.kind() == ErrorKind::Interrupted
}

// What one read or write answered, or nothing where it was interrupted.
pub(crate) fn unless_interrupted(answer: io::Result<usize>) -> Option<io::Result<usize>>
    ensures again { IfNone result (IsErrAnd answer (λ e. error_kind e ≡ ErrorKind.Interrupted)) }
    ensures same { IfSome result (λ r. r ≡ answer) }
    ensures stands { IfSome result (λ r. IfErr r NotInterrupted) }
{
    match answer {
        Err(e) if is_interrupted(&e) => None,
        Err(e) => Some(Err(e)),
        Ok(n) => Some(Ok(n)),
    }
}
