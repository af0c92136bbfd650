ghost use Rattle.std.specs.Prelude.{◌≡◌, ◌+◌, ◌≤◌, min, length};
ghost use Rattle.text.specs.Lines.{before_newline, CutsLine};

// How many bytes stand before the first newline.
fn count_plain(s: &[u8]) -> usize
    ensures counted { result ≡ before_newline s.now }
    ensures within { result ≤ length s.now }
{
    s.iter().take_while(|b| **b != b'\n').count()
}

// How many bytes the first line has, with its newline if there is one.
fn line_size(s: &[u8]) -> usize
    ensures { result ≡ min (before_newline s.now + 1) (length s.now) }
{
    let n = count_plain(s);
    if n < s.len() { n + 1 } else { n }
}

/// The first line of a text, with its newline, and the rest of the text.
#[tactic(auto, using(crate::proofs::Lines::cuts_line))]
pub fn first_line(s: &[u8]) -> (&[u8], &[u8])
    ensures { CutsLine s.now result.0.now result.1.now }
{
    s.split_at(line_size(s))
}
