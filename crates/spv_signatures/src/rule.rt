// The rules on calls and returns, by their numbers. Those on types, 501 and 502, stand in `spv_values`.

/// A call does not fit its callee.
pub const CALL_SHAPE: u16 = 506;

/// A return does not fit the result type of its function.
pub const RETURN_TYPE: u16 = 507;
