ghost use Rattle.std.specs.Prelude.{◌≡◌, ◌+◌, ◌*◌, ◌≤◌, length, None, Some, Ok, Err};
ghost use Rattle.text.specs.Lines.{before_newline};
ghost use Rattle.dry_run.specs.Fed.{Takes, Feeds, Ends, EndsIn};
ghost use Rattle.dry_run.specs.Steps.{FirstLine};

use crate::line::lay_unreadable;
use crate::refused::lay_no_end;
use crate::run::{DryRun, Progress};
use text::refusal::Refusal;

// How many bytes stand in front of the first newline.
fn count_plain(s: &[u8]) -> usize
    ensures counted { result ≡ before_newline s.now }
    ensures within { result ≤ length s.now }
{
    s.iter().take_while(|b| **b != b'\n').count()
}

// The first line with its newline, and what stands behind it, if there is a newline.
#[tactic(auto, using(crate::proofs::Bytes::first_line, crate::proofs::Bytes::no_line))]
fn first_line(s: &[u8]) -> Option<(&[u8], &[u8])>
    ensures { FirstLine s.now (elim result [ None ↦ None | Some p ↦ Some (p.0.now, p.1.now) ]) }
{
    let n = count_plain(s);
    if n == s.len() {
        return None;
    }
    Some(s.split_at(n + 1))
}

impl DryRun {
    // Takes a piece where there is room for what is printed of it.
    fn take_piece(&mut self, piece: &[u8], out: &mut [u8]) -> usize
        requires { 10 * length piece.now + 1040 ≤ length out.old }
        ensures takes { Takes self.old self.new piece.now out.old 0 result out.new }
        ensures within { result ≤ length out.old }
    {
        let mut at = 0;
        let mut rest = piece;
        while let Some((line, behind)) = first_line(rest) {
            at = self.take_line(line, out, at);
            rest = behind;
        }
        self.take_open(rest, out, at)
    }

    /// Takes the next bytes of the input, however it is cut into pieces, writes what is printed of them at the start
    /// of memory, and answers its size. Ten bytes for each of the piece, and 1,040 more, are always enough, and with
    /// less nothing is taken.
    pub fn feed(&mut self, piece: &[u8], out: &mut [u8]) -> Result<usize, Refusal>
        ensures feeds { Feeds self.old piece.now out.old result self.new out.new }
        ensures within { elim result [ Ok n ↦ n ≤ length out.old | Err why ↦ Unit {0} ] }
    {
        if out.len() < 1040 || (out.len() - 1040) / 10 < piece.len() {
            return Err(Refusal::Memory);
        }
        Ok(self.take_piece(piece, out))
    }

    // What is printed at the end of the input.
    fn last(&self, out: &mut [u8]) -> usize
        requires { 64 ≤ length out.old }
        ensures ends { Ends self.now out.old result out.new }
        ensures within { result ≤ 64 }
    {
        match &self.progress {
            Progress::Plan { .. } => lay_no_end(out),
            Progress::Events { line, .. } => {
                if line.len() == 0 {
                    return 0;
                }
                lay_unreadable(Refusal::NotEvent, out, 0)
            }
            Progress::Over => 0,
        }
    }

    /// Ends the input: writes what is then printed at the start of memory, and answers its size.
    /// 64 bytes are enough. The dry run is only lent: it is the same value behind the call, so
    /// where memory was too small it can be ended again, or fed more.
    pub fn end(&self, out: &mut [u8]) -> Result<usize, Refusal>
        ensures ends { EndsIn self.now out.old result out.new }
        ensures within { elim result [ Ok n ↦ n ≤ length out.old | Err why ↦ Unit {0} ] }
    {
        if out.len() < 64 {
            return Err(Refusal::Memory);
        }
        Ok(self.last(out))
    }
}
