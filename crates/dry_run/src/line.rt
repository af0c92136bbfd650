ghost use Rattle.std.specs.Prelude.{◌≡◌, ◌+◌, ◌*◌, ◌≤◌, length};
ghost use Rattle.event.specs.Answers.{calls_of, event_call, line_text, event_size, unreadable_text};
ghost use Rattle.event.specs.Laid.{Laid};
ghost use Rattle.dry_run.specs.Steps.{line_size, LineTaken, RunsOn};

use crate::banks::PlanBanks;
use controller::controller::Controller;
use event::write::{write_event, write_unreadable};
use rules::call::Call;
use rules::event::{Acceptance, Event};
use text::refusal::Refusal;

// Puts a call to the controller.
#[tactic(auto, using(crate::proofs::Steps::one_call))]
fn call(controller: &mut Controller<PlanBanks>, call: Call) -> Event
    ensures call { event_call result ≡ call }
    ensures runs { RunsOn controller.old (calls_of result) controller.new }
{
    match call {
        Call::Release(task) => match controller.release(task) {
            Ok(number) => Event::Accepted(Acceptance::Release { task, number }),
            Err(why) => Event::Refused(Call::Release(task), why),
        },
        Call::Ask {
            task,
            resource,
            mode,
        } => match controller.ask(task, resource, mode) {
            Ok(asked) => Event::Accepted(Acceptance::Ask {
                task,
                resource,
                mode,
                asked,
            }),
            Err(why) => Event::Refused(
                Call::Ask {
                    task,
                    resource,
                    mode,
                },
                why,
            ),
        },
        Call::Give(task) => match controller.give(task) {
            Ok(used) => Event::Accepted(Acceptance::Give { task, used }),
            Err(why) => Event::Refused(Call::Give(task), why),
        },
        Call::Finish(task) => match controller.finish(task) {
            Ok(finished) => Event::Accepted(Acceptance::Finish { task, finished }),
            Err(why) => Event::Refused(Call::Finish(task), why),
        },
        Call::Tick => match controller.tick() {
            Ok(clock) => Event::Accepted(Acceptance::Tick { clock }),
            Err(why) => Event::Refused(Call::Tick, why),
        },
    }
}

// Lays the line of an event.
// Memory and place stay apart, here and in `take`, as in `write_bytes` of `text`.
fn lay_event(event: Event, out: &mut [u8], at: usize) -> usize
    requires { at + 10 * event_size event ≤ length out.old }
    ensures laid { Laid out.old at (line_text event) result out.new }
    ensures few { result ≤ at + 10 * event_size event }
{
    write_event(event, out, at).unwrap()
}

// Lays the line of what is no event.
pub(crate) fn lay_unreadable(why: Refusal, out: &mut [u8], at: usize) -> usize
    requires { at + 8 ≤ length out.old }
    ensures laid { Laid out.old at (unreadable_text why) result out.new }
    ensures few { result ≤ at + 8 }
{
    write_unreadable(why, out, at).unwrap()
}

// Answers the event that a line is, or its refusal where it is none, and lays what is printed of
// it.
pub(crate) fn answer_line(
    controller: &mut Controller<PlanBanks>,
    event: Result<Call, Refusal>,
    out: &mut [u8],
    at: usize,
) -> usize
    requires { at + 10 * line_size event ≤ length out.old }
    ensures { LineTaken controller.old controller.new event out.old at result out.new }
{
    match event {
        Ok(event) => lay_event(call(controller, event), out, at),
        Err(why) => lay_unreadable(why, out, at),
    }
}
