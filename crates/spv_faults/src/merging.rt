ghost use Rattle.std.specs.Prelude.{◌≡◌, ◌++◌, ◌∷◌, [], ◌==◌, not, map};
ghost use Rattle.spv_module.specs.First.{first, here, least, unless};
ghost use Rattle.spv_blocks.specs.Blocks.{last_opens, next_of};
ghost use Rattle.spv_blocks.specs.Seen.{seen_block, seen_end, seen_ins};
ghost use Rattle.spv_walk.specs.Faults.{merge_faults, suits_selection as suits_selection_in, suits_loop as suits_loop_in};
ghost use Rattle.spv_walk.specs.Found.{loop_rules};
ghost use Rattle.spv_walk.specs.Rules.{loop_at};
ghost use Rattle.spv_faults.specs.Parts.{is_next as is_next_in, selection_suits as selection_suits_in, loop_suits as loop_suits_in, merge_faults_of};

use crate::refusals::{earlier, fault_at, rule_unless};
use crate::rule;
use spv_base::Refusal;
use spv_blocks::{Block, Construct, End, Ins, Labels};

/// Whether OpSelectionMerge may stand before the terminator.
fn suits_selection(end: &End) -> bool
    ensures { result ≡ suits_selection_in (seen_end end.now) }
{
    match end {
        End::BranchIf(..) | End::Switch(..) => true,
        End::Branch(_) | End::Return | End::Unreachable | End::Open => false,
    }
}

/// Whether OpLoopMerge may stand before the terminator.
fn suits_loop(end: &End) -> bool
    ensures { result ≡ suits_loop_in (seen_end end.now) }
{
    match end {
        End::Branch(_) | End::BranchIf(..) => true,
        End::Switch(..) | End::Return | End::Unreachable | End::Open => false,
    }
}

/// Whether an OpSelectionMerge of a block stands and names what it may.
fn selection_suits(labels: &Labels, header: u32, end: &End, last: bool, merge: u32) -> bool
    ensures { result ≡ selection_suits_in labels.now header (seen_end end.now) last merge }
{
    last && suits_selection(end) && labels.is_role(header, merge)
}

/// Whether a label may be the continue target of a loop: the loop's header too, where no other merge instruction names
/// it.
fn is_next(labels: &Labels, header: u32, next: u32) -> bool
    ensures { result ≡ is_next_in labels.now header next }
{
    if next == header {
        labels.named(next) == 1
    } else {
        labels.is_role(header, next)
    }
}

/// Whether an OpLoopMerge of a block stands and names what it may.
fn loop_suits(labels: &Labels, header: u32, end: &End, last: bool, merge: u32, next: u32) -> bool
    ensures { result ≡ loop_suits_in labels.now header (seen_end end.now) last merge next }
{
    last && suits_loop(end)
        && !labels.is_first(header)
        && labels.is_role(header, merge)
        && is_next(labels, header, next)
}

/// The least rule that an OpLoopMerge breaks, by whether it stands and names what it may.
fn loop_rule(suits: bool, header: u32, next: u32) -> Option<u16>
    ensures { result ≡ least (unless suits 403 ++ unless (not (next == header)) 405) }
{
    if suits {
        rule_unless(next != header, rule::BAD_CONTINUE)
    } else {
        Some(rule::BAD_MERGE)
    }
}

/// The first rule that an instruction of a block breaks as a merge instruction.
fn merge_fault_of(
    labels: &Labels,
    header: u32,
    end: &End,
    last: bool,
    inst: &Ins,
) -> Option<Refusal>
    ensures { result ≡ first (merge_faults_of labels.now header (seen_end end.now) last (seen_ins inst.now)) }
{
    match inst {
        Ins::Phi { .. } | Ins::Other { .. } => None,
        Ins::Selection { at, merge } => {
            let suits = selection_suits(labels, header, end, last, *merge);
            fault_at(*at, rule_unless(suits, rule::BAD_MERGE))
        }
        Ins::Loop { at, merge, next } => {
            let suits = loop_suits(labels, header, end, last, *merge, *next);
            fault_at(*at, loop_rule(suits, header, *next))
        }
    }
}

/// The first rule that a block breaks by its merge instructions, 403 or 405.
pub fn merge_fault(labels: &Labels, header: u32, block: &Block) -> Option<Refusal>
    ensures { result ≡ first (merge_faults labels.now header (seen_block block.now).end (seen_block block.now).body) }
{
    let mut found = None;
    let body = block.body.as_slice();
    'instructions: for k in 0..body.len() {
        let last = k + 1 == body.len();
        let fault = merge_fault_of(labels, header, &block.end, last, &body[k]);
        found = earlier(found, fault);
    }
    found
}

/// The place of an OpLoopMerge; 0 of another instruction.
fn place_of_loop(inst: &Ins) -> u32
    ensures { result ≡ loop_at (seen_ins inst.now ∷ []) }
{
    match inst {
        Ins::Loop { at, .. } => *at,
        Ins::Phi { .. } | Ins::Selection { .. } | Ins::Other { .. } => 0,
    }
}

/// The place of the OpLoopMerge that stands last among instructions; 0 where another does or none.
fn loop_place(body: &[Ins]) -> u32
    ensures { result ≡ loop_at (map seen_ins body.now) }
{
    match body.last() {
        Some(inst) => place_of_loop(inst),
        None => 0,
    }
}

/// The rule that a block breaks at its OpLoopMerge where its continue part does not end in exactly one back edge, 405;
/// none where it is no header of a loop.
pub fn loop_fault(has_one: bool, block: &Block) -> Option<Refusal>
    ensures { result ≡ first (here (loop_at (seen_block block.now).body) (loop_rules has_one (next_of (last_opens (seen_block block.now).end (seen_block block.now).body)))) }
{
    match block.construct() {
        Some(Construct::Loop(..)) => fault_at(
            loop_place(&block.body),
            rule_unless(has_one, rule::BAD_CONTINUE),
        ),
        Some(Construct::Selection(_) | Construct::Switch(_)) | None => None,
    }
}
