//! A writer into memory that takes few bytes at a time, and may be interrupted or fail.
ghost use Rattle.std.specs.Prelude.{Some};

use std::io;
use std::io::{Error, ErrorKind, Write};

#[derive(Drop)]
pub struct PieceWriter {
    // what was written
    pub taken: Vec<u8>,
    // a write takes at most this many bytes and one more
    pub more: usize,
    // whether each second write is interrupted, and whether the next one is
    pub interrupts: bool,
    pub interrupted: bool,
    // no more than this many bytes are taken, and a write then fails, or takes nothing
    pub room: usize,
    pub fails: bool,
}

impl Write for PieceWriter {
    ghost contents = { λ s. Some s.taken.items };

    fn write(&mut self, buf: &[u8]) -> io::Result<usize> {
        if self.interrupts {
            self.interrupted = !self.interrupted;
            if self.interrupted {
                return Err(Error::from(ErrorKind::Interrupted));
            }
        }
        let room = self.room.saturating_sub(self.taken.len());
        if room == 0 && self.fails {
            return Err(Error::from(ErrorKind::StorageFull));
        }
        let most = buf.len().min(room).min(self.more.saturating_add(1));
        self.taken.write(&buf[..most])
    }

    fn flush(&mut self) -> io::Result<()> {
        Ok(())
    }
}
