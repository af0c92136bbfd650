ghost use Rattle.std.specs.Prelude.{◌≡◌, ◌+◌, ◌*◌, ◌≤◌, [], ◌∷◌, ◌++◌, length, codes, decimal};
ghost use Rattle.text.specs.Memory.{Writes};
ghost use Rattle.rules.specs.Answers.{call_of};
ghost use Rattle.event.specs.Answers.{refused_text, asked_text, issued_text, finished_text, accepted_text, line_text, event_size, unreadable_text};
ghost use Rattle.rules.specs.declared.call.Call.TheVariants.{Ask};
ghost use Rattle.event.specs.Laid.{Laid};
ghost use Rattle.event.specs.Lines.{event_then, event_text};

use bank::request::Mode;
use rules::answer::{Asked, Finished, Issued};
use rules::call::Call;
use rules::event::{Acceptance, Event};
use rules::refusal::Refusal as Why;
use text::memory::write_bytes;
use text::refusal::Refusal;

/// The most bytes of a printed line, its newline included.
pub const LINE_BYTES: usize = 64;

// Lays bytes at a place where they fit.
#[inline(always)]
#[tactic(auto, using(text::proofs::Writes::overlay_part))]
fn lay_bytes(out: &mut [u8], at: usize, bytes: &[u8]) -> usize
    requires { at + length bytes.now ≤ length out.old }
    ensures { Laid out.old at bytes.now result out.new }
{
    let end = at + bytes.len();
    out[at..end].copy_from_slice(bytes);
    end
}

// Lays a byte.
#[inline(always)]
fn lay_byte(out: &mut [u8], at: usize, byte: u8) -> usize
    requires { at + 1 ≤ length out.old }
    ensures { Laid out.old at (byte ∷ []) result out.new }
{
    lay_bytes(out, at, &[byte])
}

// Lays the digits of a number, two behind those of a hundredth.
fn lay_digits(out: &mut [u8], at: usize, n: u32) -> usize
    requires { at + length (decimal n) ≤ length out.old }
    ensures { Laid out.old at (decimal n) result out.new }
{
    if n < 10 {
        return lay_byte(out, at, b'0' + n as u8);
    }
    let tenth = n / 10;
    if tenth < 10 {
        return lay_bytes(out, at, &[b'0' + tenth as u8, b'0' + (n % 10) as u8]);
    }
    let end = lay_digits(out, at, tenth / 10);
    lay_bytes(
        out,
        end,
        &[b'0' + (tenth % 10) as u8, b'0' + (n % 10) as u8],
    )
}

// The same, quickest for a number of one digit.
#[inline(always)]
fn lay_number(out: &mut [u8], at: usize, n: u32) -> usize
    requires { at + length (decimal n) ≤ length out.old }
    ensures { Laid out.old at (decimal n) result out.new }
{
    if n < 10 {
        return lay_byte(out, at, b'0' + n as u8);
    }
    lay_digits(out, at, n)
}

// Lays a number between bytes.
#[inline(always)]
#[tactic(auto, using(item::proofs::Sizes::number_size))]
fn lay_field(out: &mut [u8], at: usize, before: &[u8], n: u32, behind: &[u8]) -> usize
    requires { at + length before.now + 10 + length behind.now ≤ length out.old }
    ensures laid { Laid out.old at (before.now ++ (decimal n ++ behind.now)) result out.new }
    ensures few { length (decimal n) ≤ 10 }
{
    let end = lay_bytes(out, at, before);
    let end = lay_number(out, end, n);
    lay_bytes(out, end, behind)
}

// Lays an ask and a comma.
#[inline(always)]
fn lay_ask(out: &mut [u8], at: usize, task: u32, resource: u32, mode: Mode) -> usize
    requires { at + 26 ≤ length out.old }
    ensures laid { Laid out.old at (event_then (Ask task resource mode) (44 ∷ [])) result out.new }
    ensures few { length (event_text (Ask task resource mode)) ≤ 26 }
{
    let end = lay_field(out, at, b"A,", task, b",");
    match mode {
        Mode::Write => lay_field(out, end, b"", resource, b",W,"),
        Mode::Read => lay_field(out, end, b"", resource, b",R,"),
    }
}

// Lays a call and a comma.
#[inline(always)]
fn lay_call(out: &mut [u8], at: usize, call: Call) -> usize
    requires { at + 26 ≤ length out.old }
    ensures laid { Laid out.old at (event_then call (44 ∷ [])) result out.new }
    ensures few { length (event_text call) ≤ 26 }
{
    match call {
        Call::Release(task) => lay_field(out, at, b"N,", task, b","),
        Call::Ask {
            task,
            resource,
            mode,
        } => lay_ask(out, at, task, resource, mode),
        Call::Give(task) => lay_field(out, at, b"G,", task, b","),
        Call::Finish(task) => lay_field(out, at, b"F,", task, b","),
        Call::Tick => lay_bytes(out, at, b"K,"),
    }
}

// Lays a refusal: its number, and the task that it names, if it names one.
#[inline(always)]
#[tactic(auto, using(crate::proofs::Sizes::late_size))]
fn lay_refused(out: &mut [u8], at: usize, why: Why) -> usize
    requires { at + 34 ≤ length out.old }
    ensures laid { Laid out.old at (refused_text why) result out.new }
    ensures few { length (refused_text why) ≤ 17 }
{
    match why {
        Why::Late(task) => {
            let end = lay_field(out, at, b"no,", why.number(), b",");
            lay_field(out, end, b"", task, b"\n")
        }
        _ => lay_field(out, at, b"no,", why.number(), b"\n"),
    }
}

// Lays what an ask came to.
#[inline(always)]
fn lay_asked(out: &mut [u8], at: usize, asked: Asked) -> usize
    requires { at + 27 ≤ length out.old }
    ensures laid { Laid out.old at (asked_text asked) result out.new }
    ensures few { length (asked_text asked) ≤ 17 }
{
    match asked {
        Asked::Hold => lay_bytes(out, at, b"hold\n"),
        Asked::Wait => lay_bytes(out, at, b"wait\n"),
        Asked::Back => lay_bytes(out, at, b"back\n"),
    }
}

// Lays the request that a finish issued.
#[inline(always)]
fn lay_issued(out: &mut [u8], at: usize, issued: Option<Issued>) -> usize
    requires { at + 16 ≤ length out.old }
    ensures laid { Laid out.old at (issued_text issued) result out.new }
    ensures few { length (issued_text issued) ≤ 16 }
{
    match issued {
        None => lay_bytes(out, at, b"-\n"),
        Some(Issued { task, holds: true }) => lay_field(out, at, b"", task, b",hold\n"),
        Some(Issued { task, holds: false }) => lay_field(out, at, b"", task, b",wait\n"),
    }
}

// Lays what a finish came to.
#[inline(always)]
fn lay_finished(out: &mut [u8], at: usize, finished: Finished) -> usize
    requires { at + 27 ≤ length out.old }
    ensures laid { Laid out.old at (finished_text finished) result out.new }
    ensures few { length (finished_text finished) ≤ 27 }
{
    let end = lay_field(out, at, b"", finished.blocked, b",");
    lay_issued(out, end, finished.issued)
}

// Lays the answer to an accepted call.
#[inline(always)]
fn lay_accepted(out: &mut [u8], at: usize, accepted: Acceptance) -> usize
    requires { at + 27 ≤ length out.old }
    ensures laid { Laid out.old at (accepted_text accepted) result out.new }
    ensures few { length (accepted_text accepted) ≤ 9 * length (event_text (call_of accepted)) }
    ensures small { length (accepted_text accepted) ≤ 27 }
{
    match accepted {
        Acceptance::Release { number, .. } => lay_field(out, at, b"", number, b"\n"),
        Acceptance::Ask { asked, .. } => lay_asked(out, at, asked),
        Acceptance::Give { used, .. } => lay_field(out, at, b"", used, b"\n"),
        Acceptance::Finish { finished, .. } => lay_finished(out, at, finished),
        Acceptance::Tick { clock } => lay_field(out, at, b"", clock, b"\n"),
    }
}

// The call of an accepted one.
#[inline(always)]
fn accepted_call(accepted: Acceptance) -> Call
    ensures { result ≡ call_of accepted }
{
    match accepted {
        Acceptance::Release { task, .. } => Call::Release(task),
        Acceptance::Ask {
            task,
            resource,
            mode,
            ..
        } => Call::Ask {
            task,
            resource,
            mode,
        },
        Acceptance::Give { task, .. } => Call::Give(task),
        Acceptance::Finish { task, .. } => Call::Finish(task),
        Acceptance::Tick { .. } => Call::Tick,
    }
}

// Lays the line of an event.
#[inline(always)]
fn lay_line(out: &mut [u8], at: usize, event: Event) -> usize
    requires { at + LINE_BYTES ≤ length out.old }
    ensures laid { Laid out.old at (line_text event) result out.new }
    ensures few { length (line_text event) ≤ 10 * event_size event }
    ensures small { length (line_text event) ≤ LINE_BYTES }
{
    match event {
        Event::Accepted(accepted) => {
            let end = lay_call(out, at, accepted_call(accepted));
            lay_accepted(out, end, accepted)
        }
        Event::Refused(call, why) => {
            let end = lay_call(out, at, call);
            lay_refused(out, end, why)
        }
    }
}

// The same where memory may be too small for any line.
#[cold]
#[inline(never)]
fn write_tight(event: Event, out: &mut [u8], at: usize) -> Result<usize, Refusal>
    ensures writes { Writes out.old at (line_text event) result out.new }
    ensures few { length (line_text event) ≤ 10 * event_size event }
{
    let mut line = [0; LINE_BYTES];
    let size = lay_line(&mut line, 0, event);
    write_bytes(out, at, &line[..size])
}

/// Writes the line of an event at a place, and answers the place behind it.
#[inline(always)]
pub fn write_event(event: Event, out: &mut [u8], at: usize) -> Result<usize, Refusal>
    ensures writes { Writes out.old at (line_text event) result out.new }
    ensures few { length (line_text event) ≤ 10 * event_size event }
{
    if out.len() < LINE_BYTES || out.len() - LINE_BYTES < at {
        return write_tight(event, out, at);
    }
    Ok(lay_line(out, at, event))
}

// Lays the line of what is no event.
#[inline(always)]
#[tactic(auto, using(crate::proofs::Sizes::unreadable_size))]
fn lay_unreadable(out: &mut [u8], at: usize, why: Refusal) -> usize
    requires { at + LINE_BYTES ≤ length out.old }
    ensures laid { Laid out.old at (unreadable_text why) result out.new }
    ensures few { length (unreadable_text why) ≤ 8 }
{
    lay_field(out, at, b"?,no,", why.number(), b"\n")
}

// The same where memory may be too small for any line.
#[cold]
#[inline(never)]
fn write_unreadable_tight(why: Refusal, out: &mut [u8], at: usize) -> Result<usize, Refusal>
    ensures writes { Writes out.old at (unreadable_text why) result out.new }
    ensures few { length (unreadable_text why) ≤ 8 }
{
    let mut line = [0; LINE_BYTES];
    let size = lay_unreadable(&mut line, 0, why);
    write_bytes(out, at, &line[..size])
}

/// Writes the line of what is no event at a place, and answers the place behind it.
#[inline(always)]
pub fn write_unreadable(why: Refusal, out: &mut [u8], at: usize) -> Result<usize, Refusal>
    ensures writes { Writes out.old at (unreadable_text why) result out.new }
    ensures few { length (unreadable_text why) ≤ 8 }
{
    if out.len() < LINE_BYTES || out.len() - LINE_BYTES < at {
        return write_unreadable_tight(why, out, at);
    }
    Ok(lay_unreadable(out, at, why))
}
