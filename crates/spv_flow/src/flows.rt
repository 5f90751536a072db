ghost use Rattle.std.specs.Prelude.{◌≡◌, IfOk};
ghost use Rattle.std.specs.BTreeSet.{contains};
ghost use Rattle.std.specs.Ordering.{nat_cmp};
ghost use Rattle.spv_walk.specs.Numbering.{HasOwnLabels};
ghost use Rattle.spv_walk.specs.Rules.{Broken, IsFirst};

use crate::known::Known;
use spv_base::{NoMemory, Refusal};
use spv_blocks::{Function, Labels, Table};
use spv_walking::Walked;
use std::alloc::Global;
use std::collections::BTreeSet;

/// The tables of a function that breaks no rule on structured control flow.
#[derive(Drop)]
pub struct Flow {
    /// The block from which each label may be entered.
    enterers: Table<u32>,
    walked: Walked,
}

impl Flow {
    ghost use Rattle.std.specs.Prelude.{◌≡◌, None, Some, IfOk, IfErr};
    ghost use Rattle.spv_blocks.specs.Tables.{found as found_in};
    ghost use Rattle.std.specs.BTreeSet.{contains};
    ghost use Rattle.std.specs.Ordering.{nat_cmp};
    ghost use Rattle.spv_walk.specs.Numbering.{HasOwnLabels};
    ghost use Rattle.spv_walk.specs.Rules.{Broken, IsFirst};
    ghost use Rattle.spv_walk.specs.Walked.{AreEnterers, InPlaces, IsWalk};
    ghost use Rattle.spv_flow.specs.Known.{AreToldLoops};
    ghost use Rattle.spv_walking.specs.Depths.{IsDepth};
    ghost use Rattle.spv_walking.specs.Table.{context_of};

    /// What the rules on structured control flow find in a function: the first broken one, or the tables. `pointers` are
    /// the types that are pointers. Each block is looked at once.
    pub fn of(
        alloc: Global,
        pointers: &BTreeSet<u32>,
        function: &Function,
        labels: &Labels,
    ) -> Result<Result<Flow, Refusal>, NoMemory>
        requires own { HasOwnLabels function.now }
        requires same { labels.now ≡ function.now }
        ensures refused { IfOk result (λ found. IfErr found (λ refusal. IsFirst (Broken (contains nat_cmp pointers.now) function.now) (Some refusal))) }
        ensures clean { IfOk result (λ found. IfOk found (λ flow. IsFirst (Broken (contains nat_cmp pointers.now) function.now) None)) }
        ensures enterers { IfOk result (λ found. IfOk found (λ flow. AreEnterers function.now (found_in flow.enterers))) }
        ensures walk { IfOk result (λ found. IfOk found (λ flow. IsWalk function.now (InPlaces (context_of flow.walked)))) }
        ensures loops { IfOk result (λ found. IfOk found (λ flow. AreToldLoops function.now)) }
    {
        let known = Known::of(alloc, pointers, function, labels)?;
        match known.fault(alloc)? {
            Some(refusal) => Ok(Err(refusal)),
            None => {
                let Known {
                    enterers,
                    walked,
                    ..
                } = known;
                Ok(Ok(Flow { enterers, walked }))
            }
        }
    }

    /// The block from which each label may be entered, by the label: the label of that block.
    pub fn enterers(&self) -> &Table<u32>
        ensures { result.now ≡ self.now.enterers }
    {
        &self.enterers
    }

    /// The walked blocks, each with its context.
    pub fn walked(&self) -> &Walked
        ensures { result.now ≡ self.now.walked }
    {
        &self.walked
    }

    /// The greatest number of constructs round one point of the function.
    pub fn depth(&self, labels: &Labels, function: &Function) -> usize
        requires same { labels.now ≡ function.now }
        ensures { IsDepth labels.now (InPlaces (context_of self.now.walked)) result }
    {
        self.walked.depth(labels, function)
    }
}

/// The first broken rule on structured control flow of a function, if there is one. `pointers` are the types that are
/// pointers.
pub fn first_broken(
    alloc: Global,
    pointers: &BTreeSet<u32>,
    function: &Function,
) -> Result<Option<Refusal>, NoMemory>
    requires { HasOwnLabels function.now }
    ensures { IfOk result (λ refusal. IsFirst (Broken (contains nat_cmp pointers.now) function.now) refusal) }
{
    let labels = Labels::of(alloc, function)?;
    match Flow::of(alloc, pointers, function, &labels)? {
        Ok(_) => Ok(None),
        Err(refusal) => Ok(Some(refusal)),
    }
}
