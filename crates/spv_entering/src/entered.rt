ghost use Rattle.std.specs.Prelude.{◌≡◌, IfOk, OnOk};
ghost use Rattle.spv_blocks.specs.Tables.{found};
ghost use Rattle.spv_blocks.specs.Edges.{predecessors_of};
ghost use Rattle.spv_walk.specs.Walked.{AreEnterers};
ghost use Rattle.spv_entering.specs.Tops.{AreTops};
ghost use Rattle.spv_entering.specs.Steps.{AreSteps};
ghost use Rattle.spv_entering.specs.Cases.{AddsEnterer};

use crate::cases::Known;
use crate::flow::Flow;
use crate::stepping::steps;
use spv_base::NoMemory;
use spv_blocks::{Edges, Labels, Table};
use std::alloc::Global;

/// Adds the block from which a label may be entered, if there is one.
fn add(alloc: Global, known: &Known, enterers: &mut Table<u32>, t: u32) -> Result<(), NoMemory>
    requires steps { AreSteps known.now.flow.code known.now.steps }
    requires tops { AreTops known.now.flow.code (found known.now.tops.now) }
    ensures { OnOk result (AddsEnterer known.now.flow.code (found enterers.old) (found enterers.new) t) }
{
    let Some(b) = known.enterer(alloc, t)? else {
        return Ok(());
    };
    enterers.put(t, b)
}

/// The block from which each label may be entered.
fn enterers_of(alloc: Global, known: &Known) -> Result<Table<u32>, NoMemory>
    requires steps { AreSteps known.now.flow.code known.now.steps }
    requires tops { AreTops known.now.flow.code (found known.now.tops.now) }
    ensures { IfOk result (λ enterers. AreEnterers known.now.flow.code (found enterers)) }
{
    let labels = known.flow.labels();
    let mut enterers = Table::beside(alloc, labels)?;
    'each: for k in 0..labels.count() {
        if let Some(t) = labels.label(k) {
            add(alloc, known, &mut enterers, t)?;
        }
    }
    Ok(enterers)
}

/// The block from which each label may be entered, by the label: the label of that block. The edges and the tops are
/// those of the labels.
pub fn enterers(
    alloc: Global,
    labels: &Labels,
    edges: &Edges,
    tops: &Table<u32>,
) -> Result<Table<u32>, NoMemory>
    requires edges { edges.now.predecessors ≡ predecessors_of labels.now }
    requires tops { AreTops labels.now (found tops.now) }
    ensures { IfOk result (λ enterers. AreEnterers labels.now (found enterers)) }
{
    let flow = Flow::of(alloc, labels, edges)?;
    let steps = steps(alloc, &flow)?;
    let known = Known { flow, tops, steps };
    enterers_of(alloc, &known)
}
