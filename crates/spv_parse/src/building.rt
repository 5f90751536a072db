ghost use Rattle.std.specs.Prelude.{◌≡◌, IfOk};
ghost use Rattle.spv_blocks.specs.Cutting.{blocks_of};
ghost use Rattle.spv_walk.specs.Walked.{InPlaces, IsWalk};
ghost use Rattle.spv_walking.specs.Table.{context_of};
ghost use Rattle.spv_spelling.specs.Spelling.{SpellsFunction};
ghost use Rattle.spv_sources.specs.Source.{stays_of};
ghost use Rattle.spv_tree.specs.Tree.{body_of};

use crate::scene::Scene;
use crate::state::State;
use spv_base::NoMemory;
use spv_blocks::Labels;
use spv_sources::{Heading, Source};
use spv_tree::Body;
use spv_walking::Walked;
use std::alloc::Global;

/// The tree of a function in which no rule on structured control flow is broken: its instructions, its labels, and the walk
/// through its blocks. It goes down the constructs by calls, so they are to nest no deeper than the stack has room for. It
/// fails only for want of memory.
pub fn build(
    alloc: Global,
    source: &Source<'_>,
    labels: &Labels<'_>,
    walked: &Walked,
) -> Result<Body, NoMemory>
    requires same { labels.now ≡ blocks_of source.now.insts }
    requires walk { IsWalk labels.now (InPlaces (context_of walked.now)) }
    ensures { IfOk result (λ body. SpellsFunction source.now.insts (stays_of source.now) (body_of body)) }
{
    source.is_admitted();
    source.are_staying();
    let scene = Scene {
        source,
        labels,
        walked,
    };
    let Heading {
        function,
        parameters,
    } = source.heading(alloc)?;
    let label = source.first();
    let sequence = scene.sequence(alloc, Vec::new(alloc), State::Behind(label), labels.count())?;
    Ok(Body {
        function,
        parameters,
        label,
        sequence,
    })
}
