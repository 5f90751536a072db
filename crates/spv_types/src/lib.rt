//! Types, constants and global variables of a module, and the rules on them.
#![tactic(auto)]

mod building;
mod composites;
mod computed_constant;
mod constants;
mod declared_constant;
mod declared_type;
mod evaluation;
mod extraction;
pub mod facts;
mod keeping;
mod lookup;
pub mod meaning;
mod meanings;
mod operands;
mod rules;
mod words;

pub use building::tables;
pub use facts::TypeFacts;
pub use lookup::Tables;
pub use meaning::{ConstKind, Constant, Kept, Value};
