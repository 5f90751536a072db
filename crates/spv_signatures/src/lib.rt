//! The rules on functions, their parameters, calls and returns: 501 and 502 at these, 506 and 507.
#![tactic(auto)]

pub mod calls;
pub mod contexts;
pub mod functions;
pub mod parameters;
pub mod returns;
pub mod rows;
pub mod rule;
pub mod rules;
pub mod signatures;

pub use calls::call_fits;
pub use contexts::Context;
pub use functions::function_fits;
pub use parameters::Parameter;
pub use returns::{result_fits, return_fits};
pub use rules::broken_signature_rule;
pub use signatures::Signatures;
