ghost use Rattle.std.specs.Prelude.{◌≡◌, ◌+◌, ℕ, not, nat_lt, Some, IfOk};
ghost use Rattle.spv_module.specs.First.{first};
ghost use Rattle.spv_blocks.specs.Edges.{predecessors_of};
ghost use Rattle.spv_blocks.specs.Places.{place as place_in};
ghost use Rattle.spv_blocks.specs.Seen.{seen_block};
ghost use Rattle.spv_exits.specs.Exits.{branching as branching_in, capped, crowded, crowded_at as crowded_in};

use crate::rule;
use spv_base::{NoMemory, Refusal};
use spv_blocks::{Block, Edges, Function, Labels};
use spv_faults::earlier;
use spv_faults::refusals::{fault_at, rule_unless};
use std::alloc::Global;

/// How many blocks branch to the block with a label; 0 for what is no label of the function.
fn branching(labels: &Labels, edges: &Edges, label: u32) -> usize
    requires { edges.now.predecessors ≡ predecessors_of labels.now }
    ensures { (place : ℕ) → place_in labels.now label ≡ Some place → result ≡ branching_in labels.now label }
{
    match labels.place(label) {
        Some(place) => edges.predecessors.row(place).len(),
        None => 0,
    }
}

/// Whether these blocks that branch to one, and nested returns, are not too many together.
fn exits_fit(branching: usize, nested: usize) -> bool
    ensures { result ≡ not (nat_lt 16383 (branching + nested)) }
{
    nested <= rule::MOST_EXITS && branching <= rule::MOST_EXITS - nested
}

/// 607 at a block of the function.
fn crowded_at(labels: &Labels, edges: &Edges, block: &Block, nested: usize) -> Option<Refusal>
    requires { edges.now.predecessors ≡ predecessors_of labels.now }
    ensures { (place : ℕ) → place_in labels.now (seen_block block.now).label ≡ Some place → result ≡ first (crowded_in labels.now nested (seen_block block.now)) }
{
    let fits = exits_fit(branching(labels, edges, block.label), nested);
    fault_at(block.at, rule_unless(fits, rule::MANY_EXITS))
}

/// The first block of a function that breaks 607 ManyExits, given how many nested returns the module has: 607 at its
/// OpLabel. It takes time in proportion to the targets of the function, but for looking up their labels.
///
/// # Errors
/// Where memory is wanting.
pub fn first_crowded(
    alloc: Global,
    function: &Function,
    labels: &Labels,
    nested: usize,
) -> Result<Option<Refusal>, NoMemory>
    requires same { labels.now ≡ function.now }
    ensures first { IfOk result (λ refusal. refusal ≡ first (crowded function.now nested)) }
    ensures capped { (n : ℕ) → nested ≡ capped n → IfOk result (λ refusal. refusal ≡ first (crowded function.now n)) }
{
    let edges = Edges::of(alloc, labels)?;
    let mut refusal = None;
    'each: for k in 0..function.count() {
        refusal = earlier(
            refusal,
            crowded_at(labels, &edges, function.block(k), nested),
        );
    }
    Ok(refusal)
}
