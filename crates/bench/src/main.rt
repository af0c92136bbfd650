//! Reads the full plan and writes it back, as many times as the argument says.
#![tactic(auto)]

use plan::plan::Plan;
use plan_text::read::read;
use plan_text::write::write;
use std::{env, fs, io};

// Whether a text is read into the place of a plan and written back as it was.
fn reads_back(text: &[u8], plan: &mut Plan, out: &mut [u8]) -> bool {
    if read(text, plan).is_err() {
        return false;
    }
    match write(plan, out) {
        Ok(size) => size == text.len() && out.starts_with(text),
        Err(_) => false,
    }
}

// How many times the text was written back as it was.
fn repeat(text: &[u8], out: &mut [u8], times: u32) -> u32 {
    let mut plan = Plan::new();
    let mut same = 0u32;
    for _ in 0..times {
        if reads_back(text, &mut plan, out) {
            same = same.saturating_add(1);
        }
    }
    same
}

fn main(rt: HostRuntime) -> io::Result<()> {
    let text = fs::read(&rt, "full.txt")?;
    let mut out = vec![in rt.alloc(); 0u8; 16384]?;
    for word in env::args(&rt)?.skip(1) {
        let times = word.as_str().parse::<u32>().unwrap_or(0);
        let same = repeat(text.as_slice(), out.as_mut_slice(), times);
        println!(rt; "reads and writes {same}")?;
    }
    Ok(())
}
