use spv_base::Id;
use spv_tree::{End, Entry, Exit};
use sqlite_items::Items;

/// Where a sequence goes on.
#[derive(Drop)]
pub(crate) enum State {
    /// Behind the OpPhi of a block, which is no header of a loop.
    Behind(Id),
    /// At a loop, by its header.
    Loop(Id, Entry),
}

/// What follows the items that a block gives to a sequence.
#[derive(Drop)]
pub(crate) enum Onward {
    To(State),
    End(End),
}

/// Where a branch leads.
#[derive(Drop)]
pub(crate) enum Way {
    /// Out of the part.
    Exit(Exit),
    /// To the header of a loop, with a value for each of its OpPhi.
    Loop(Items<Id>),
    /// To a block that keeps its label, or is joined.
    Block,
}

/// An OpBranchConditional of which one target is an exit.
#[derive(Drop)]
pub(crate) struct Parting {
    /// Whether the exit is taken where the condition holds.
    pub(crate) on: bool,
    pub(crate) exit: Exit,
    pub(crate) other: Id,
}
