//! Reads a plan and event lines from standard input, and prints the answers.
#![tactic(auto)]

use dry_run::play::play;
use std::io;

fn main(rt: HostRuntime) -> io::Result<()> {
    let mut input = rt.stdin();
    let mut output = rt.stdout();
    play(rt.alloc(), &mut input, &mut output)
}
