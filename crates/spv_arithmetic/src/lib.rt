//! The rules on the types of arithmetic's operands and results, and of the operands that terminators decide by.
#![tactic(auto)]

pub mod forms;
pub mod operands;
pub mod results;
pub mod rules;

pub use forms::Form;
pub use operands::operands_fit;
pub use results::result_fits;
pub use rules::broken_arithmetic_rule;
