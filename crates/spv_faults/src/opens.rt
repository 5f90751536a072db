ghost use Rattle.std.specs.Prelude.{◌≡◌, not};
ghost use Rattle.spv_module.specs.First.{first, here, unless};
ghost use Rattle.spv_blocks.specs.Seen.{seen_block, seen_end};
ghost use Rattle.spv_walk.specs.Numbering.{HasOwnLabels};
ghost use Rattle.spv_walk.specs.Rules.{IsFirst};
ghost use Rattle.spv_faults.specs.Opens.{is_open as is_open_in, open_faults, IsOpenAt};

use crate::refusals::{earlier, fault_at, rule_unless};
use crate::rule;
use spv_base::Refusal;
use spv_blocks::{Block, End, Function};

/// Whether it is no terminator.
fn is_open(end: &End) -> bool
    ensures { result ≡ is_open_in (seen_end end.now) }
{
    match end {
        End::Open => true,
        End::Branch(_) | End::BranchIf(..) | End::Switch(..) | End::Return | End::Unreachable =>
            false,
    }
}

/// The refusal of a block without a terminator.
fn open_block(block: &Block) -> Option<Refusal>
    ensures { result ≡ first (here (seen_block block.now).end_at (unless (not (is_open_in (seen_block block.now).end)) 401)) }
{
    fault_at(
        block.end_at,
        rule_unless(!is_open(&block.end), rule::NO_TERMINATOR),
    )
}

/// The first block of a function without a terminator, 401.
pub fn open_fault(function: &Function) -> Option<Refusal>
    ensures first { result ≡ first (open_faults function.now) }
    ensures is_first { HasOwnLabels function.now → IsFirst (IsOpenAt function.now) result }
{
    let mut found = None;
    'each: for k in 0..function.count() {
        found = earlier(found, open_block(function.block(k)));
    }
    found
}
