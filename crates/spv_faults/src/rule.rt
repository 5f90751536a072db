// The rules on structured control flow, by their numbers.

/// A block has no terminator.
pub const NO_TERMINATOR: u16 = 401;

/// A branch leads where it may not.
pub const BAD_TARGET: u16 = 402;

/// A merge instruction stands or names what it may not, or an OpSwitch has none.
pub const BAD_MERGE: u16 = 403;

/// A continue part is not as it should be.
pub const BAD_CONTINUE: u16 = 405;

/// An OpPhi stands or names what it may not.
pub const BAD_PHI: u16 = 406;

/// An OpBranchConditional without a merge instruction has no target that is an exit.
pub const BARE_BRANCH: u16 = 407;

/// Both targets of an OpBranchConditional are the same.
pub const SAME_TARGETS: u16 = 408;

/// Not exactly one target of the OpBranchConditional of a loop header is its merge block.
pub const HEADER_SPLIT: u16 = 410;
