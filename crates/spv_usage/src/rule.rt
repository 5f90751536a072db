// The rules on storage classes, scopes and memory semantics in functions, by their numbers.

/// A variable in a function stands or is what it may not, or a storage class is used as it may not.
pub const STORAGE_USE: u16 = 504;

/// A scope or memory semantics are no Known integer constant, or none that they may be.
pub const SCOPE_OR_SEMANTICS: u16 = 505;
