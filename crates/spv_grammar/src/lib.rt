//! The grammar of instructions: which operands each opcode takes, and what part each word plays.
#![tactic(auto)]

pub mod enumerants;
pub mod fronts;
pub mod kind;
pub mod operands;
pub mod section;
pub mod table;
pub mod text;
