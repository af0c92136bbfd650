ghost use Rattle.std.specs.Prelude.{◌≡◌, ◌+◌, ◌*◌, ◌≤◌, true, [], ◌∷◌, ◌++◌, length, take};
ghost use Rattle.byte_vec.specs.Bytes.{Appends};
ghost use Rattle.event.specs.Lines.{ReadsEvent};
ghost use Rattle.plan.specs.Of.{plan_contents};
ghost use Rattle.event.specs.Laid.{Laid};
ghost use Rattle.dry_run.specs.Fed.{run_in, progress_behind, Takes};
ghost use Rattle.dry_run.specs.Steps.{reserve, line_reserve, line_size, AtLine, IsLine, Plain, Waits};
ghost use Rattle.dry_run.specs.Made.{MadeFrom};
ghost use Rattle.dry_run.specs.Said.{preamble_text, refused_text};
ghost use Rattle.dry_run.specs.declared.run.Progress.TheVariants.{Plan as InPlan, Events as InEvents, Over as IsOver};

use crate::banks::{PlanBanks, banks_of};
use crate::line::answer_line;
use crate::preamble::lay_preamble;
use crate::refused::{lay_no_end, lay_refused};
use crate::run::{DryRun, Progress};
use byte_vec::byte_vec::{ByteVec, Full};
use controller::controller::Controller;
use event::read::read_call;
use plan::plan::Plan;
use plan_text::read::read;
use rules::call::Call;
use text::refusal::Refusal;

// The plan is accepted: its controller, and the end of the lines before the events.
fn accept(plan: &Plan, out: &mut [u8]) -> (Controller<PlanBanks>, usize)
    requires { 1040 ≤ length out.old }
    ensures laid { Laid out.old 0 (preamble_text (plan_contents plan.now)) result.1 out.new }
    ensures few { result.1 ≤ 1040 }
    ensures made { MadeFrom (plan_contents plan.now) result.0 }
{
    let banks = banks_of(plan);
    let end = lay_preamble(plan, &banks, out);
    (Controller::new(plan, banks), end)
}

// The controller of a plan that an empty line ended, if the plan is accepted, and the end of what is printed.
fn behind_plan(text: &[u8], out: &mut [u8]) -> (Option<Controller<PlanBanks>>, usize)
    requires { 1040 ≤ length out.old }
    ensures takes { Takes (run_in (InPlan text.now true)) (run_in (progress_behind result.0))
        (10 ∷ []) out.old 0 result.1 out.new }
    ensures few { result.1 ≤ 1040 }
{
    let mut plan = Plan::new();
    match read(text, &mut plan) {
        Ok(()) => {
            let (controller, end) = accept(&plan, out);
            (Some(controller), end)
        }
        Err(why) => (None, lay_refused(out, why)),
    }
}

// The event that a line is with its newline. One that has no room for it is longer than any event.
fn line_event(mut line: ByteVec<16>) -> Result<Call, Refusal>
    ensures reads { ReadsEvent (line ++ (10 ∷ [])) result }
    ensures size { 10 * line_size result ≤ line_reserve line + 10 }
{
    match line.push(b'\n') {
        Ok(()) => read_call(line.as_slice()),
        Err(Full) => Err(Refusal::NotEvent),
    }
}

// Keeps the front of a line: no event is longer than what is kept.
#[tactic(auto, using(crate::proofs::Bytes::kept_more))]
fn keep_front(line: &mut ByteVec<16>, bytes: &[u8])
    ensures { line.new ≡ take 16 (line.old ++ bytes.now) }
{
    let room = 16 - line.len();
    line.extend_from_slice(&bytes[..room.min(bytes.len())])
        .unwrap();
}

// The call that a line is whose front was kept, if something was.
fn read_line(kept: &ByteVec<16>, rest: &[u8]) -> Result<Call, Refusal>
    requires { IsLine rest.now }
    ensures reads { ReadsEvent (kept.now ++ rest.now) result }
    ensures size { 10 * line_size result ≤ line_reserve kept.now + 10 * length rest.now }
{
    if kept.len() == 0 {
        return read_call(rest);
    }
    let mut line = *kept;
    keep_front(&mut line, &rest[..rest.len() - 1]);
    line_event(line)
}

// A line of events, or the rest of one.
#[inline(always)]
fn take_event_line(
    controller: &mut Controller<PlanBanks>,
    kept: &mut ByteVec<16>,
    rest: &[u8],
    out: &mut [u8],
    at: usize,
) -> usize
    requires { IsLine rest.now × (at + line_reserve kept.old + 10 * length rest.now ≤ length out.old) }
    ensures takes { Takes (run_in (InEvents controller.old kept.old)) (run_in (InEvents controller.new kept.new)) rest.now out.old at result out.new }
    ensures few { result + line_reserve kept.new ≤ at + line_reserve kept.old + 10 * length rest.now }
{
    let event = read_line(kept, rest);
    *kept = ByteVec::new();
    answer_line(controller, event, out, at)
}

// Keeps bytes of the plan's text, where it then has fewer than 16,384: the newline of its empty line
// is one more.
fn keep(text: &mut ByteVec<16383>, bytes: &[u8]) -> Result<(), Full>
    ensures { Appends 16383 text.old bytes.now result text.new }
{
    text.extend_from_slice(bytes)
}

// A whole `Progress` is made outside of what takes a line, where the room for one would be taken
// for each line.
impl DryRun {
    // No empty line has come in time.
    fn refuse(&mut self, out: &mut [u8]) -> usize
        requires { 50 ≤ length out.old }
        ensures laid { Laid out.old 0 (refused_text 22 0) result out.new }
        ensures few { result ≤ 50 }
        ensures over { self.new ≡ run_in IsOver }
    {
        self.progress = Progress::Over;
        lay_no_end(out)
    }

    // An empty line ends the plan.
    fn close_plan(&mut self, out: &mut [u8]) -> usize
        requires { AtLine self.old × (1040 ≤ length out.old) }
        ensures takes { Takes self.old self.new (10 ∷ []) out.old 0 result out.new }
        ensures few { result + reserve self.new ≤ 1040 }
        ensures waits { Waits self.new result }
    {
        let Progress::Plan { text, .. } = &self.progress else {
            unreachable()
        };
        let (controller, end) = behind_plan(text.as_slice(), out);
        self.progress = match controller {
            Some(controller) => Progress::Events {
                controller,
                line: ByteVec::new(),
            },
            None => Progress::Over,
        };
        end
    }

    // A line of the input, or the rest of one.
    #[inline(always)]
    pub(crate) fn take_line(&mut self, line: &[u8], out: &mut [u8], at: usize) -> usize
        requires { IsLine line.now × Waits self.old at × (at + reserve self.old + 10 * length line.now ≤ length out.old) }
        ensures takes { Takes self.old self.new line.now out.old at result out.new }
        ensures few { result + reserve self.new ≤ at + reserve self.old + 10 * length line.now }
        ensures waits { Waits self.new result }
    {
        match &mut self.progress {
            Progress::Plan { text, begins } => {
                if line.len() == 1 && *begins {
                    return self.close_plan(out);
                }
                match keep(text, line) {
                    Ok(()) => {
                        *begins = true;
                        0
                    }
                    Err(Full) => self.refuse(out),
                }
            }
            Progress::Events {
                controller,
                line: kept,
            } => take_event_line(controller, kept, line, out, at),
            Progress::Over => at,
        }
    }

    // Bytes of the input that end no line.
    pub(crate) fn take_open(&mut self, bytes: &[u8], out: &mut [u8], at: usize) -> usize
        requires { Plain bytes.now × Waits self.old at × (at + reserve self.old + 10 * length bytes.now ≤ length out.old) }
        ensures takes { Takes self.old self.new bytes.now out.old at result out.new }
        ensures few { result + reserve self.new ≤ at + reserve self.old + 10 * length bytes.now }
        ensures waits { Waits self.new result }
    {
        if bytes.len() == 0 {
            return at;
        }
        match &mut self.progress {
            Progress::Plan { text, begins } => match keep(text, bytes) {
                Ok(()) => {
                    *begins = false;
                    0
                }
                Err(Full) => self.refuse(out),
            },
            Progress::Events { line, .. } => {
                keep_front(line, bytes);
                at
            }
            Progress::Over => at,
        }
    }
}
