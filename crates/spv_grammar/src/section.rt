// The sections of a module, in their order (SPIR-V Specification, section 2.4).

/// Line marks, which belong to the section of the instruction before them.
pub const ANYWHERE: u8 = 0;

pub const CAPABILITIES: u8 = 1;

/// Imports of extended instruction sets.
pub const IMPORTS: u8 = 2;

pub const MEMORY_MODEL: u8 = 3;

pub const ENTRY_POINTS: u8 = 4;

pub const EXECUTION_MODES: u8 = 5;

/// Strings and sources.
pub const STRINGS: u8 = 6;

/// Names of ids and of members.
pub const NAMES: u8 = 7;

/// Notes on how the module was processed.
pub const PROCESSES: u8 = 8;

pub const DECORATIONS: u8 = 9;

/// Types, constants and global variables.
pub const DECLARATIONS: u8 = 10;

/// Functions with their blocks.
pub const FUNCTIONS: u8 = 11;
