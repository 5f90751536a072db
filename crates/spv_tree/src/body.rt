use crate::control::Control;
use spv_base::Id;
use spv_module::{Inst, InstList};
use sqlite_items::Items;

/// A branch out of a part.
#[derive(Drop)]
pub struct Exit {
    /// The block that it goes to.
    pub target: Id,
    /// A value for each parameter of that block.
    pub values: Items<Id>,
}

/// A parameter of a block, which is an OpPhi.
#[derive(Drop)]
pub struct Parameter {
    pub type_id: Id,
    pub result_id: Id,
    /// The blocks that the OpPhi names, in its order.
    pub parents: Items<Id>,
}

/// The front of a loop's header, of a continue target or of a merge block.
#[derive(Drop)]
pub struct Front {
    pub label: Id,
    pub parameters: Items<Parameter>,
}

/// A case of a switch.
#[derive(Clone, Copy)]
pub struct Case {
    pub literal: u32,
    /// The label of the arm that it goes to.
    pub target: Id,
}

/// Where a sequence goes on behind a conditional exit.
#[derive(Drop)]
pub enum Next {
    /// In a block with this label, which nothing else branches to.
    Block(Id),
    /// At what follows, which begins at a branch: a loop that is the next item, or the exit that the sequence ends with.
    Branch,
}

/// How a loop is come to.
#[derive(Drop)]
pub enum Entry {
    /// By a branch, with a value for each parameter of its header. It is the branch of an `Arm`, or that of a `Split` which goes on at the
    /// loop; else it is an OpBranch.
    Branch(Items<Id>),
    /// Its header is the merge block or continue target right before it, and `header` is that block's front again.
    InPlace,
}

/// An OpBranchConditional without OpSelectionMerge. One of its targets is an exit.
#[derive(Drop)]
pub struct Split {
    pub condition: Id,
    /// Whether the exit is taken where the condition holds.
    pub on: bool,
    pub exit: Exit,
    pub next: Next,
}

/// How a sequence ends.
#[derive(Drop)]
pub enum End {
    Exit(Exit),
    Return,
    /// OpReturnValue of this value.
    ReturnValue(Id),
    Unreachable,
}

/// What is done one after the other, and how it ends.
#[cycle(body)]
#[derive(Drop)]
pub struct Sequence {
    pub items: Items<Item>,
    pub end: End,
}

#[cycle(body)]
#[derive(Drop)]
pub enum Item {
    /// An instruction that is no OpPhi, no merge instruction and no terminator.
    Op(Inst),
    Choice(Choice),
    Switch(Switch),
    Loop(Loop),
    Split(Split),
}

/// A block that one branch alone goes to, and what it begins.
#[cycle(body)]
#[derive(Drop)]
pub struct Block {
    pub label: Id,
    pub body: Sequence,
}

/// Where a branch goes.
#[cycle(body)]
#[derive(Drop)]
pub enum Arm {
    Exit(Exit),
    Block(Block),
    Loop(Entered),
}

/// A loop that the branch goes to, and what follows it.
#[cycle(body)]
#[derive(Drop)]
pub struct Entered {
    pub turn: Box<Loop>,
    pub rest: Sequence,
}

/// OpSelectionMerge and OpBranchConditional.
#[cycle(body)]
#[derive(Drop)]
pub struct Choice {
    /// The mask of the OpSelectionMerge.
    pub control: Control,
    pub condition: Id,
    /// Where the condition holds.
    pub first: Arm,
    /// Where it does not.
    pub second: Arm,
    pub merge: Front,
}

/// OpSelectionMerge and OpSwitch. Its arms stand in the order in which it first names them.
#[cycle(body)]
#[derive(Drop)]
pub struct Switch {
    /// The mask of the OpSelectionMerge.
    pub control: Control,
    pub selector: Id,
    pub cases: Items<Case>,
    /// The arm of the default.
    pub first: Arm,
    /// The arms with other targets.
    pub others: Items<Arm>,
    pub merge: Front,
}

/// How the header of a loop ends, behind its OpLoopMerge.
#[cycle(body)]
#[derive(Drop)]
pub enum Opening {
    /// OpBranch.
    Branch(Arm),
    /// OpBranchConditional to an exit and an arm.
    Split(Leaving),
}

/// An OpBranchConditional of which one target is an exit.
#[cycle(body)]
#[derive(Drop)]
pub struct Leaving {
    pub condition: Id,
    /// Whether the exit is taken where the condition holds.
    pub on: bool,
    pub exit: Exit,
    pub arm: Arm,
}

/// A loop: its header with OpLoopMerge, the header's body, the continue part and the merge block.
#[cycle(body)]
#[derive(Drop)]
pub struct Loop {
    pub entry: Entry,
    pub header: Front,
    /// The instructions of the header's block.
    pub steps: Items<Inst>,
    /// The mask of the OpLoopMerge.
    pub control: Control,
    pub opening: Opening,
    /// The continue target.
    pub next: Front,
    /// The continue part.
    pub continuing: Sequence,
    pub merge: Front,
}

/// A function.
#[derive(Drop)]
pub struct Body {
    /// Its OpFunction.
    pub function: Inst,
    /// Its OpFunctionParameter, in order.
    pub parameters: InstList,
    /// The label of its first block.
    pub label: Id,
    pub sequence: Sequence,
}
