ghost use Rattle.std.specs.Prelude.{◌≡◌, ◌+◌, ◌≤◌, ℕ, length};
ghost use Rattle.spv_blocks.specs.Seen.{seen_block, seen_end};
ghost use Rattle.spv_walk.specs.Walked.{IsWalk, InPlaces};
ghost use Rattle.spv_walking.specs.Table.{context_of};
ghost use Rattle.spv_exits.specs.Exits.{AreNestedReturns, capped, is_inside as inside_in, is_nested_return as nested_in, is_return as return_in, nested_by};

use crate::rule;
use spv_blocks::{Block, End, Function};
use spv_walking::Walked;

/// Whether a block ends with OpReturn or OpReturnValue.
fn is_return(end: &End) -> bool
    ensures { result ≡ return_in (seen_end end.now) }
{
    match end {
        End::Return => true,
        End::Branch(_) | End::BranchIf(..) | End::Switch(..) | End::Unreachable | End::Open =>
            false,
    }
}

/// Whether the walk comes to a block, by its label, inside a construct.
fn is_inside(walked: &Walked, label: u32) -> bool
    ensures { result ≡ inside_in (context_of walked.now label) }
{
    match walked.place(label) {
        Some(place) => walked.rows().level(place).is_some(),
        None => false,
    }
}

/// Whether a block ends with a return inside a construct.
fn is_nested_return(walked: &Walked, block: &Block) -> bool
    ensures { result ≡ nested_in (context_of walked.now) (seen_block block.now) }
{
    is_return(&block.end) && is_inside(walked, block.label)
}

/// How many blocks of a function end with OpReturn or OpReturnValue inside a construct, by the walk through the
/// function; at most as many as it has blocks. A block that the walk does not come to counts as outside.
pub fn nested_returns(function: &Function, walked: &Walked) -> usize
    ensures same { result ≡ nested_by (context_of walked.now) function.now }
    ensures nested { IsWalk function.now (InPlaces (context_of walked.now)) → AreNestedReturns function.now result }
    ensures within { result ≤ length function.now }
{
    let mut count = 0;
    'each: for k in 0..function.count() {
        if is_nested_return(walked, function.block(k)) {
            count += 1;
        }
    }
    count
}

/// The nested returns of some functions and of one more together, counted up to 16,384: more make no difference to the
/// rule.
pub fn add_nested(nested: usize, more: usize) -> usize
    ensures { (n : ℕ) → nested ≡ capped n → result ≡ capped (n + more) }
{
    let together = nested.saturating_add(more);
    if together <= rule::MOST_EXITS {
        together
    } else {
        rule::MOST_EXITS + 1
    }
}
