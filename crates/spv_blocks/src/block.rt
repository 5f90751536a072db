ghost use Rattle.std.specs.Prelude.{◌≡◌, ◌<◌, ◌++◌, length, slice_index, OnOk, IfOk};
ghost use Rattle.std.specs.Option.{option_map};
ghost use Rattle.spv_blocks.specs.Blocks.{end_targets, opens, seconds};
ghost use Rattle.spv_blocks.specs.Seen.{seen_ins, seen_end, seen_construct};

use spv_base::NoMemory;
use std::alloc::Global;

/// An instruction of a block before its terminator, with the place of its first word in the module, in words.
#[derive(Debug, Drop)]
pub enum Ins {
    /// OpPhi: its type, its result and its pairs of a value and a parent block.
    Phi {
        at: u32,
        kind: u32,
        result: u32,
        pairs: Vec<(u32, u32)>,
    },
    /// OpSelectionMerge: its merge block.
    Selection {
        at: u32,
        merge: u32,
    },
    /// OpLoopMerge: its merge block and its continue target.
    Loop {
        at: u32,
        merge: u32,
        next: u32,
    },
    Other {
        at: u32,
    },
}

/// How a block ends.
#[derive(Debug, Drop)]
pub enum End {
    /// OpBranch: its target.
    Branch(u32),
    /// OpBranchConditional: its two targets.
    BranchIf(u32, u32),
    /// OpSwitch: its default, and its pairs of a literal and a label.
    Switch(u32, Vec<(u32, u32)>),
    /// OpReturn or OpReturnValue.
    Return,
    /// OpUnreachable.
    Unreachable,
    /// No terminator: OpLabel or OpFunctionEnd comes first, or the instructions end.
    Open,
}

/// A basic block.
#[derive(Debug, Drop)]
pub struct Block {
    /// The id of its OpLabel.
    pub label: u32,
    /// The place of its OpLabel in the module, in words.
    pub at: u32,
    /// Its instructions before its terminator, without line marks.
    pub body: Vec<Ins>,
    /// The place of its terminator, or of what comes in its stead, in words; 0 where the instructions end before.
    pub end_at: u32,
    pub end: End,
}

/// What a merge instruction opens before a terminator.
#[derive(Clone, Copy, Debug, PartialEq, Eq)]
pub enum Construct {
    /// A selection: its merge block.
    Selection(u32),
    /// A switch: its merge block.
    Switch(u32),
    /// A loop: its merge block and its continue target.
    Loop(u32, u32),
}

/// What an instruction opens before a terminator.
fn opened(end: &End, inst: &Ins) -> Option<Construct>
    ensures { option_map seen_construct result ≡ opens (seen_end end.now) (seen_ins inst.now) }
{
    match (end, inst) {
        (End::Open, _) => None,
        (_, Ins::Phi { .. } | Ins::Other { .. }) => None,
        (_, Ins::Loop { merge, next, .. }) => Some(Construct::Loop(*merge, *next)),
        (End::Switch(..), Ins::Selection { merge, .. }) => Some(Construct::Switch(*merge)),
        (_, Ins::Selection { merge, .. }) => Some(Construct::Selection(*merge)),
    }
}

/// The labels that a terminator names.
fn targets_of(alloc: Global, end: &End) -> Result<Vec<u32>, NoMemory>
    ensures { IfOk result (λ labels. labels.items ≡ end_targets (seen_end end.now)) }
{
    let mut labels = Vec::new(alloc);
    match end {
        End::Branch(target) => labels.push(*target)?,
        End::BranchIf(one, other) => {
            labels.push(*one)?;
            labels.push(*other)?;
        }
        End::Switch(default, cases) => {
            labels.push(*default)?;
            push_seconds(&mut labels, cases)?;
        }
        End::Return | End::Unreachable | End::Open => {}
    }
    Ok(labels)
}

/// Adds the second of each pair.
fn push_seconds(labels: &mut Vec<u32>, pairs: &[(u32, u32)]) -> Result<(), NoMemory>
    ensures { OnOk result (labels.new.items ≡ labels.old.items ++ seconds pairs.now) }
{
    'pairs: for pair in pairs {
        labels.push(pair.1)?;
    }
    Ok(())
}

/// How many labels a terminator names.
#[tactic(auto, using(crate::proofs::EndTargets::count_seconds))]
fn target_count_of(end: &End) -> usize
    ensures { result ≡ length (end_targets (seen_end end.now)) }
{
    match end {
        End::Branch(_) => 1,
        End::BranchIf(..) => 2,
        End::Switch(_, cases) => 1 + cases.len(),
        End::Return | End::Unreachable | End::Open => 0,
    }
}

/// The second of the k-th pair, counted from 0.
#[tactic(auto, using(crate::proofs::EndTargets::second_at))]
fn second_at(pairs: &[(u32, u32)], k: usize) -> u32
    requires { k < length pairs.now }
    ensures { result ≡ slice_index (seconds pairs.now) k }
{
    pairs[k].1
}

/// The k-th label that a terminator names, counted from 0.
fn target_of(end: &End, k: usize) -> u32
    requires { k < length (end_targets (seen_end end.now)) }
    ensures { result ≡ slice_index (end_targets (seen_end end.now)) k }
{
    match end {
        End::Branch(target) => *target,
        End::BranchIf(one, other) => if k == 0 { *one } else { *other },
        End::Switch(default, cases) => if k == 0 {
            *default
        } else {
            second_at(cases, k - 1)
        },
        End::Return | End::Unreachable | End::Open => unreachable!(),
    }
}

impl Block {
    ghost use Rattle.std.specs.Prelude.{◌≡◌, ◌<◌, length, slice_index, IfOk};
    ghost use Rattle.std.specs.Option.{option_map};
    ghost use Rattle.spv_blocks.specs.Blocks.{end_targets, last_opens};
    ghost use Rattle.spv_blocks.specs.Seen.{seen_block, seen_construct};

    /// What the last instruction before the terminator opens.
    pub fn construct(&self) -> Option<Construct>
        ensures { option_map seen_construct result ≡ last_opens (seen_block self.now).end (seen_block self.now).body }
    {
        opened(&self.end, self.body.last()?)
    }

    /// How many labels its terminator names, with repetitions.
    pub fn target_count(&self) -> usize
        ensures { result ≡ length (end_targets (seen_block self.now).end) }
    {
        target_count_of(&self.end)
    }

    /// The k-th label that its terminator names, counted from 0.
    pub fn target(&self, k: usize) -> u32
        requires { k < length (end_targets (seen_block self.now).end) }
        ensures { result ≡ slice_index (end_targets (seen_block self.now).end) k }
    {
        target_of(&self.end, k)
    }

    /// The labels that its terminator names, in order, with repetitions.
    pub fn targets(&self, alloc: Global) -> Result<Vec<u32>, NoMemory>
        ensures { IfOk result (λ labels. labels.items ≡ end_targets (seen_block self.now).end) }
    {
        targets_of(alloc, &self.end)
    }
}
