ghost use Rattle.std.specs.Prelude.{◌≡◌, ◌==◌, ◌++◌, not, IfOk};
ghost use Rattle.std.specs.Option.{option_map};
ghost use Rattle.spv_module.specs.First.{first, here, least, unless};
ghost use Rattle.spv_blocks.specs.Blocks.{is_switch as is_switch_in};
ghost use Rattle.spv_blocks.specs.Seen.{seen_construct, seen_end};
ghost use Rattle.spv_walk.specs.Contexts.{Context, in_next as in_next_of};
ghost use Rattle.spv_walk.specs.Faults.{end_rules, same_twice, splits_header as splits_header_in};
ghost use Rattle.spv_faults.specs.Ends.{TellsExit};

use crate::numbers::{firsts, once};
use crate::refusals::{fault_at, rule_unless};
use crate::rule;
use spv_base::{NoMemory, Refusal};
use spv_blocks::{Construct, End};
use std::alloc::Global;

/// Whether one literal stands in two of an OpSwitch's pairs of a literal and a label.
pub fn same_literal(alloc: Global, cases: &[(u32, u32)]) -> Result<bool, NoMemory>
    ensures { IfOk result (λ same. same ≡ same_twice cases.now) }
{
    let literals = firsts(alloc, cases)?;
    match once(alloc, &literals)? {
        Some(_) => Ok(false),
        None => Ok(true),
    }
}

/// Whether it is a switch.
fn is_switch(construct: Option<Construct>) -> bool
    ensures { result ≡ is_switch_in (option_map seen_construct construct) }
{
    match construct {
        Some(Construct::Switch(_)) => true,
        Some(Construct::Selection(_) | Construct::Loop(..)) | None => false,
    }
}

/// Whether exactly one of two targets is the merge block, where the block is the header of a loop.
fn splits_header(construct: Option<Construct>, one: u32, other: u32) -> bool
    ensures { result ≡ splits_header_in (option_map seen_construct construct) one other }
{
    match construct {
        Some(Construct::Loop(merge, _)) => (one == merge) != (other == merge),
        Some(Construct::Selection(_) | Construct::Switch(_)) | None => true,
    }
}

/// The least rule that an OpBranchConditional breaks.
fn branch_rule(construct: Option<Construct>, has_exit: bool, one: u32, other: u32) -> Option<u16>
    ensures { result ≡ least (unless has_exit 407 ++ (unless (not (one == other)) 408 ++ unless (splits_header_in (option_map seen_construct construct) one other) 410)) }
{
    if !has_exit {
        Some(rule::BARE_BRANCH)
    } else if one == other {
        Some(rule::SAME_TARGETS)
    } else {
        rule_unless(splits_header(construct, one, other), rule::HEADER_SPLIT)
    }
}

/// The least rule that an OpSwitch breaks.
fn switch_rule(
    alloc: Global,
    construct: Option<Construct>,
    cases: &[(u32, u32)],
) -> Result<Option<u16>, NoMemory>
    ensures { IfOk result (λ rule. rule ≡ least (unless (not (same_twice cases.now)) 402 ++ unless (is_switch_in (option_map seen_construct construct)) 403)) }
{
    if same_literal(alloc, cases)? {
        Ok(Some(rule::BAD_TARGET))
    } else {
        Ok(rule_unless(is_switch(construct), rule::BAD_MERGE))
    }
}

/// The least rule that a terminator breaks.
fn end_rule(
    alloc: Global,
    construct: Option<Construct>,
    has_exit: bool,
    in_next: bool,
    end: &End,
) -> Result<Option<u16>, NoMemory>
    ensures { IfOk result (λ rule. (c : Context) → TellsExit has_exit (option_map seen_construct construct) c (seen_end end.now) → in_next ≡ in_next_of c → rule ≡ least (end_rules (option_map seen_construct construct) c (seen_end end.now))) }
{
    match end {
        End::Branch(_) | End::Open => Ok(None),
        End::BranchIf(one, other) => Ok(branch_rule(construct, has_exit, *one, *other)),
        End::Switch(_, cases) => switch_rule(alloc, construct, cases),
        End::Return | End::Unreachable => Ok(rule_unless(!in_next, rule::BAD_CONTINUE)),
    }
}

/// The first rule that a block breaks by its terminator at a place, 402, 403, 405, 407, 408 or 410: by what it opens,
/// whether it does or a target of its OpBranchConditional is an exit, and whether it stands in a continue part.
pub fn end_fault(
    alloc: Global,
    construct: Option<Construct>,
    has_exit: bool,
    in_next: bool,
    end: &End,
    at: u32,
) -> Result<Option<Refusal>, NoMemory>
    ensures { IfOk result (λ fault. (c : Context) → TellsExit has_exit (option_map seen_construct construct) c (seen_end end.now) → in_next ≡ in_next_of c → fault ≡ first (here at (end_rules (option_map seen_construct construct) c (seen_end end.now)))) }
{
    let rule = end_rule(alloc, construct, has_exit, in_next, end)?;
    Ok(fault_at(at, rule))
}
