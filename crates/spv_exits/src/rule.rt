// The rule on many exits, by its number, and its bound.

/// Too many blocks branch to a block, together with the nested returns of the module.
pub const MANY_EXITS: u16 = 607;

/// How many blocks that branch to one block, and nested returns of the module, there may be at most, together.
pub const MOST_EXITS: usize = 16_383;
