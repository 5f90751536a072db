//! Types, constants and variables by their ids, and the rules on how types are made and on what
//! OpSpecConstantOp computes.
#![tactic(auto)]

pub mod kinds;
pub mod operations;
pub mod shapes;
pub mod types;

pub use kinds::Kinds;
pub use operations::spec_op_fits;
pub use shapes::Shape;
pub use types::type_fits;
