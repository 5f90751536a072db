ghost use Rattle.std.specs.Prelude.{◌≡◌, ◌++◌, map, filter, IfOk, OnOk};
ghost use Rattle.spv_blocks.specs.Blocks.{construct, merge_of, next_of};
ghost use Rattle.spv_blocks.specs.Places.{is_free, number_of};
ghost use Rattle.spv_blocks.specs.Seen.{seen_construct};
ghost use Rattle.std.specs.Option.{option_map};
ghost use Rattle.spv_entering.specs.Steps.{role_of, onward as onward_in, steps_from, label_of, AreSteps};

use crate::flow::Flow;
use graph::{Graph, Places};
use spv_base::NoMemory;
use spv_blocks::{Construct, Labels};
use std::alloc::Global;

/// Adds a merge block or continue target of a block, if it may be walked to.
fn add_role(
    labels: &Labels,
    b: u32,
    role: Option<u32>,
    found: &mut Vec<u32>,
) -> Result<(), NoMemory>
    ensures { OnOk result (found.new.items ≡ found.old.items ++ role_of labels.now b role) }
{
    if let Some(role) = role
        && labels.is_role(b, role)
    {
        found.push(role)?;
    }
    Ok(())
}

/// Adds the labels that any block may go on to.
fn add_free(labels: &Labels, targets: &[u32], found: &mut Vec<u32>) -> Result<(), NoMemory>
    ensures { OnOk result (found.new.items ≡ found.old.items ++ filter (is_free labels.now) targets.now) }
{
    'targets: for target in targets {
        if labels.is_free(*target) {
            found.push(*target)?;
        }
    }
    Ok(())
}

/// The merge block of a construct.
fn merge_in(construct: Option<Construct>) -> Option<u32>
    ensures { result ≡ merge_of (option_map seen_construct construct) }
{
    match construct? {
        Construct::Selection(merge) | Construct::Switch(merge) | Construct::Loop(merge, _) => Some(
            merge,
        ),
    }
}

/// The continue target of a construct.
fn next_in(construct: Option<Construct>) -> Option<u32>
    ensures { result ≡ next_of (option_map seen_construct construct) }
{
    match construct {
        Some(Construct::Loop(_, next)) => Some(next),
        _ => None,
    }
}

/// The labels directly behind a block, past merge instructions.
#[tactic(auto, unfolding(crate::specs::Steps::onward))]
fn onward(alloc: Global, flow: &Flow, b: u32) -> Result<Vec<u32>, NoMemory>
    ensures { IfOk result (λ labels. labels.items ≡ onward_in flow.now.code b) }
{
    let labels = flow.labels();
    let mut found = Vec::new(alloc);
    if labels.stops(b) {
        return Ok(found);
    }
    let construct = labels.construct(b);
    add_role(labels, b, merge_in(construct), &mut found)?;
    add_role(labels, b, next_in(construct), &mut found)?;
    add_free(labels, &flow.targets(alloc, b)?, &mut found)?;
    Ok(found)
}

/// The numbers of the blocks directly behind the i-th block.
fn row(alloc: Global, flow: &Flow, i: usize) -> Result<Vec<usize>, NoMemory>
    ensures { IfOk result (λ row. row.items ≡ steps_from flow.now.code (label_of flow.now.code i)) }
{
    let labels = flow.labels();
    match labels.label(i) {
        Some(b) => labels.numbers(alloc, &onward(alloc, flow, b)?),
        None => Ok(Vec::new(alloc)),
    }
}

/// The steps from block to block, past merge instructions, as a graph whose places are the numbers of blocks. It takes
/// time in proportion to the targets, but for looking up labels.
pub(crate) fn steps(alloc: Global, flow: &Flow) -> Result<Graph, NoMemory>
    ensures { IfOk result (λ rows. AreSteps flow.now.code rows) }
{
    let mut rows = Graph::new(alloc);
    'each: for i in 0..flow.labels().count() {
        rows.push(Places::from_vec(row(alloc, flow, i)?))?;
    }
    Ok(rows)
}
