// What evaluation takes and gives.

/// A scalar or a vector: one to four words, a component each. A boolean's word is 0 or 1. `len` says how
/// many words there are; those past it do not count.
#[derive(Clone, Copy, Debug, PartialEq, Eq)]
pub struct Operand {
    pub len: u8,
    pub w0: u32,
    pub w1: u32,
    pub w2: u32,
    pub w3: u32,
}

/// One result, or the two members of a struct one after the other: up to eight words. Words past `len`
/// are 0.
#[derive(Clone, Copy, Debug, PartialEq, Eq)]
pub struct Answered {
    pub len: u8,
    pub w0: u32,
    pub w1: u32,
    pub w2: u32,
    pub w3: u32,
    pub w4: u32,
    pub w5: u32,
    pub w6: u32,
    pub w7: u32,
}
