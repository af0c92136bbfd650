//! Works controllers over slots alone, over readers and writers alone, over pairs of them, and over a bank that does not fit.
#![tactic(auto)]

use bank::meaning::Bank;
use bank::request::Mode;
use claim::calls::{ask, give};
use claim::claim::Claim;
use controller::controller::Controller;
use pair::pair::Pair;
use plan::plan::Plan;
use plan_text::read::read;
use readers_writers::lines::ReadersWriters;
use rules::answer::{Asked, Finished};
use rules::refusal::Refusal;
use slots::slots::Slots;
use std::{fmt, io};

// The plan of a text that is one; else the smallest plan.
fn plan_of(text: &[u8]) -> Plan {
    let mut plan = Plan::new();
    let _ = read(text, &mut plan);
    plan
}

// An answer as it is printed.
#[derive(Debug, PartialEq, Eq, Drop)]
struct Shown<T>(T);

impl fmt::Display for Shown<Asked> {
    fn fmt<W: fmt::Write>(&self, f: &mut fmt::Formatter<W>) -> fmt::Result {
        match self.0 {
            Asked::Hold => write!(f, "hold"),
            Asked::Wait => write!(f, "wait"),
            Asked::Back => write!(f, "back"),
        }
    }
}

impl fmt::Display for Shown<Finished> {
    fn fmt<W: fmt::Write>(&self, f: &mut fmt::Formatter<W>) -> fmt::Result {
        let Finished { blocked, issued } = self.0;
        match issued {
            Some(next) => write!(f, "{blocked} {} {}", next.task, next.holds),
            None => write!(f, "{blocked} -"),
        }
    }
}

fn show<T: fmt::Display + Drop>(
    rt: &HostRuntime,
    call: &str,
    answer: Result<T, Refusal>,
) -> io::Result<()> {
    match answer {
        Ok(value) => println!(rt; "{call} {value}"),
        Err(why) => println!(rt; "{call} no {}", why.number()),
    }
}

fn show_nearest(rt: &HostRuntime, answer: Option<(u32, u32)>) -> io::Result<()> {
    match answer {
        Some((task, left)) => println!(rt; "nearest {task} {left}"),
        None => println!(rt; "nearest -"),
    }
}

// Spends a claim with a controller of which no task waits or is held back: the answer is a refusal.
fn settle(claim: Claim) -> Result<u32, Refusal> {
    let plan = Plan::new();
    let mut idle = Controller::new(&plan, Slots::new(&plan));
    match give(&mut idle, claim) {
        Ok(answer) => answer,
        Err(_) => unreachable(),
    }
}

// Why a claim was handed back, and what the other task was answered when it gave then.
#[derive(Debug, PartialEq, Eq, Drop)]
struct HandedBack {
    why: Refusal,
    other: Result<u32, Refusal>,
}

// What was answered to a task that asked with a claim and gave it back.
#[derive(Debug, PartialEq, Eq, Drop)]
struct Claimed {
    asked: Asked,
    ticked: Result<u32, Refusal>,
    back: Option<HandedBack>,
    gave: Result<u32, Refusal>,
}

// Task 1 asks with a claim, and gives it back at once; if it is handed back, again after task 0 gave.
fn by_claim<B: Bank>(c: &mut Controller<B>, resource: u32) -> Result<Claimed, Refusal> {
    let (asked, claim) = ask(c, 1, resource, Mode::Write)?;
    let ticked = c.tick();
    let (back, gave) = match give(c, claim) {
        Ok(gave) => (None, gave),
        Err((claim, why)) => {
            let other = c.give(0);
            let gave = give(c, claim).unwrap_or_else(|(claim, _)| settle(claim));
            (Some(HandedBack { why, other }), gave)
        }
    };
    Ok(Claimed {
        asked,
        ticked,
        back,
        gave,
    })
}

fn show_claimed(rt: &HostRuntime, answer: Result<Claimed, Refusal>) -> io::Result<()> {
    match answer {
        Ok(done) => {
            println!(rt; "claim 1 {}", Shown(done.asked))?;
            show(rt, "tick", done.ticked)?;
            if let Some(back) = done.back {
                println!(rt; "handed back no {}", back.why.number())?;
                show(rt, "give 0", back.other)?;
            }
            show(rt, "give 1", done.gave)
        }
        Err(why) => println!(rt; "claim 1 no {}", why.number()),
    }
}

// Two jobs use one resource one after another, the second by a claim.
fn work<B: Bank>(
    rt: &HostRuntime,
    c: &mut Controller<B>,
    resource: u32,
    mode: Mode,
) -> io::Result<()> {
    show(rt, "limit W", c.wait_limit(resource, Mode::Write))?;
    show(rt, "limit R", c.wait_limit(resource, Mode::Read))?;
    show_nearest(rt, c.nearest_end())?;
    show(rt, "release 0", c.release(0))?;
    show(rt, "release 1", c.release(1))?;
    show(rt, "ask 0", c.ask(0, resource, mode).map(Shown))?;
    show_nearest(rt, c.nearest_end())?;
    show_claimed(rt, by_claim(c, resource))?;
    show(rt, "finish 0", c.finish(0).map(Shown))?;
    show(rt, "finish 1", c.finish(1).map(Shown))?;
    show(rt, "tick", c.tick())
}

fn main(rt: HostRuntime) -> io::Result<()> {
    let slots = plan_of(b"C,2\nS,1\nT,0\nT,0\nL,0,0,5\nL,1,0,3\n");
    println!(rt; "slots")?;
    work(
        &rt,
        &mut Controller::new(&slots, Slots::new(&slots)),
        0,
        Mode::Write,
    )?;

    let lines = plan_of(b"C,2\nW\nT,0\nT,0\nL,0,0,5\nL,1,0,3\n");
    println!(rt; "readers and writers")?;
    work(
        &rt,
        &mut Controller::new(&lines, ReadersWriters::new(&lines)),
        0,
        Mode::Read,
    )?;

    let both = plan_of(b"C,2\nS,2\nW\nT,0\nT,0\nL,0,1,5\nL,1,1,3\n");
    println!(rt; "a pair")?;
    let pair = Pair {
        first: Slots::new(&both),
        second: ReadersWriters::new(&both),
    };
    work(&rt, &mut Controller::new(&both, pair), 1, Mode::Read)?;

    println!(rt; "a bank that does not fit")?;
    match Controller::fits(&both, &Slots::new(&both)) {
        Ok(()) => println!(rt; "fits")?,
        Err(why) => println!(rt; "fits no {}", why.number())?,
    }
    work(
        &rt,
        &mut Controller::new(&both, Slots::new(&both)),
        0,
        Mode::Write,
    )
}
