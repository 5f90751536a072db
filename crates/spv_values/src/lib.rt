//! Which ids of a module are values, and of what types.
#![tactic(auto)]

pub mod rule;
pub mod values;

pub use values::{
    is_bools, is_ints, is_pointer_value, is_value, is_value_of, pointer_type, value_shape,
    value_type,
};
