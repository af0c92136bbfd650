//! A reader of bytes in memory that gives few of them at a time, and may be interrupted or fail.
ghost use Rattle.std.specs.Prelude.{Some};

use std::io;
use std::io::{Error, ErrorKind, Read};

#[derive(Drop)]
pub struct PieceReader<'a> {
    // what has not been read
    pub rest: &'a [u8],
    // a read gives at most this many bytes and one more
    pub more: usize,
    // whether each second read is interrupted, and whether the next one is
    pub interrupts: bool,
    pub interrupted: bool,
    // a read fails where no more than this many bytes are left, if there is such a number
    pub fails_at: Option<usize>,
    // whether a read has failed
    pub failed: bool,
}

impl Read for PieceReader<'_> {
    ghost remaining = { λ s. Some s.rest.now };

    fn read(&mut self, buf: &mut [u8]) -> io::Result<usize> {
        if self.interrupts {
            self.interrupted = !self.interrupted;
            if self.interrupted {
                return Err(Error::from(ErrorKind::Interrupted));
            }
        }
        if let Some(left) = self.fails_at {
            if self.rest.len() <= left {
                self.failed = true;
                return Err(Error::from(ErrorKind::ConnectionReset));
            }
        }
        let most = buf.len().min(self.more.saturating_add(1));
        self.rest.read(&mut buf[..most])
    }
}
