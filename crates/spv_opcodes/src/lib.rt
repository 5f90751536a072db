//! The numbers of SPIR-V by name: opcodes, instructions of `GLSL.std.450` and enumerants. It holds those
//! that the optimizer knows; every other number is one that it refuses.
#![tactic(auto)]

pub mod addressing_model;
pub mod builtin;
pub mod capability;
pub mod decoration;
pub mod execution_mode;
pub mod execution_model;
pub mod ext;
pub mod function_control;
pub mod loop_control;
pub mod memory_model;
pub mod memory_operand;
pub mod op;
pub mod scope;
pub mod selection_control;
pub mod storage_class;
