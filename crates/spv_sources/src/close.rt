use spv_base::Id;
use spv_module::Inst;
use spv_tree::{Case, Control};
use sqlite_items::Items;

/// An OpBranchConditional: its condition, the target where it holds, and the other. Its weights are left out.
#[derive(Drop)]
pub struct Fork {
    pub condition: Id,
    pub first: Id,
    pub second: Id,
}

/// How the header of a loop ends, behind its OpLoopMerge.
#[derive(Drop)]
pub enum LoopEnd {
    /// OpBranch.
    Branch(Id),
    /// OpBranchConditional.
    Split(Fork),
}

/// How a block ends: its merge instruction, if it has one, and its terminator.
#[derive(Drop)]
pub enum Close {
    Return,
    /// OpReturnValue of this value.
    ReturnValue(Id),
    Unreachable,
    /// OpBranch without a merge instruction.
    Branch(Id),
    /// OpBranchConditional without a merge instruction.
    Split(Fork),
    /// OpSelectionMerge and OpBranchConditional.
    Choice {
        control: Control,
        merge: Id,
        fork: Fork,
    },
    /// OpSelectionMerge and OpSwitch.
    Switch {
        control: Control,
        merge: Id,
        selector: Id,
        default: Id,
        cases: Items<Case>,
    },
    /// OpLoopMerge and a branch.
    Loop {
        control: Control,
        merge: Id,
        next: Id,
        end: LoopEnd,
    },
}

/// A block behind its OpPhi: the instructions before its merge instruction or terminator, and how it ends.
#[derive(Drop)]
pub struct Text {
    pub steps: Vec<Inst>,
    pub close: Close,
}
