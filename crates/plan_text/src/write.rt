ghost use Rattle.std.specs.Prelude.{◌+◌, ◌*◌, ◌^◌, ◌<◌, ◌≤◌};
ghost use Rattle.item.specs.Lines.{item_text};
ghost use Rattle.plan.specs.Of.{plan_contents};
ghost use Rattle.text.specs.Memory.{Writes, Lays};
ghost use Rattle.plan_text.specs.Texts.{row_text, plan_text, ReadsBack};
ghost use Rattle.plan_text.specs.Writing.{cluster_items, resource_items, task_items, length_items, length_text};

use item::item::Item;
use plan::plan::Plan;
use text::memory::write_bytes;
use text::refusal::Refusal;

// Lays the line of an item, and answers the place behind it. Memory and place stay apart: a struct
// of both would promise in each contract and loop that it still lends the same memory.
fn lay_item(out: &mut [u8], at: usize, item: Item) -> usize
    requires { at + 35 < 2 ^ 64 }
    ensures few { result ≤ at + 35 }
    ensures lays { Lays out.old at (item_text item) result out.new }
{
    let line = item.line();
    match write_bytes(out, at, line.as_slice()) {
        Ok(end) => end,
        Err(_) => at + line.len(),
    }
}

// The line of each cluster.
#[tactic(auto, using(text::proofs::Lays::lays_none))]
fn lay_clusters(plan: &Plan, out: &mut [u8], at: usize) -> usize
    requires { at ≤ 2 ^ 40 }
    ensures few { result ≤ at + 35 * 8 }
    ensures lays { Lays out.old at (row_text (cluster_items (plan_contents plan.now))) result
        out.new }
{
    let mut end = at;
    for cluster in 0..plan.clusters() {
        let processors = plan.cluster_processors()[cluster];
        end = lay_item(out, end, Item::Cluster(processors as u32));
    }
    end
}

// The line of each resource.
#[tactic(auto, using(text::proofs::Lays::lays_none))]
fn lay_resources(plan: &Plan, out: &mut [u8], at: usize) -> usize
    requires { at ≤ 2 ^ 40 }
    ensures few { result ≤ at + 35 * 16 }
    ensures lays { Lays out.old at (row_text (resource_items (plan_contents plan.now))) result
        out.new }
{
    let mut end = at;
    for resource in 0..plan.resources() {
        let line = plan.resource_row()[resource].item();
        end = lay_item(out, end, line);
    }
    end
}

// The line of each task.
#[tactic(auto, using(text::proofs::Lays::lays_none))]
fn lay_tasks(plan: &Plan, out: &mut [u8], at: usize) -> usize
    requires { at ≤ 2 ^ 40 }
    ensures few { result ≤ at + 35 * 64 }
    ensures lays { Lays out.old at (row_text (task_items (plan_contents plan.now))) result out.new }
{
    let mut end = at;
    for task in 0..plan.tasks() {
        let cluster = plan.task_clusters()[task];
        end = lay_item(out, end, Item::Task(cluster as u32));
    }
    end
}

// The length at a place of the table, task 16 times over and then resource, if one is declared.
fn lay_length(plan: &Plan, out: &mut [u8], at: usize, place: usize) -> usize
    requires { (place < 1024) × (at + 35 < 2 ^ 64) }
    ensures few { result ≤ at + 35 }
    ensures lays { Lays out.old at (length_text (plan_contents plan.now) place) result out.new }
{
    let task = place / 16;
    let resource = place % 16;
    match plan.length(task, resource) {
        Some(ticks) => lay_item(
            out,
            at,
            Item::Length {
                task: task as u32,
                resource: resource as u32,
                ticks: ticks as u32,
            },
        ),
        None => at,
    }
}

// The lengths by task, then by resource.
fn lay_lengths(plan: &Plan, out: &mut [u8], at: usize) -> usize
    requires { at ≤ 2 ^ 40 }
    ensures { Lays out.old at (row_text (length_items (plan_contents plan.now))) result out.new }
{
    let mut end = at;
    // by place, since the plan tells a length by its task and resource
    for place in 0..1024usize {
        end = lay_length(plan, out, end, place);
    }
    end
}

// Lays the whole text; into no memory, it is only measured.
fn lay_plan(plan: &Plan, out: &mut [u8]) -> usize
    ensures { Lays out.old 0 (plan_text (plan_contents plan.now)) result out.new }
{
    let resources = lay_clusters(plan, out, 0);
    let tasks = lay_resources(plan, out, resources);
    let lengths = lay_tasks(plan, out, tasks);
    lay_lengths(plan, out, lengths)
}

// No plan's text is longer: 1,112 lines of at most 14 bytes.
const MOST: usize = 15568;

// Writes the whole text where it fits. Memory in which each plan's text fits asks for no measuring.
#[tactic(auto, using(crate::proofs::Sizes::plan_size))]
fn write_text(plan: &Plan, out: &mut [u8]) -> Result<usize, Refusal>
    ensures { Writes out.old 0 (plan_text (plan_contents plan.now)) result out.new }
{
    if out.len() < MOST && out.len() < lay_plan(plan, &mut []) {
        return Err(Refusal::Memory);
    }
    Ok(lay_plan(plan, out))
}

/// Writes the text of a plan at the start of memory, and answers its size in bytes. Where it does
/// not fit, nothing is written and the refusal is 23. 15,568 bytes are enough for each plan.
#[tactic(auto, using(crate::proofs::Image::text_accepted))]
pub fn write(plan: &Plan, out: &mut [u8]) -> Result<usize, Refusal>
    ensures writes { Writes out.old 0 (plan_text (plan_contents plan.now)) result out.new }
    ensures back { ReadsBack plan.now }
{
    write_text(plan, out)
}
