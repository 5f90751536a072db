/// The first word of each module (SPIR-V Specification, section 2.3).
pub const MAGIC: u32 = 0x0723_0203;

/// The version word of SPIR-V 1.6.
pub const VERSION_1_6: u32 = 0x0001_0600;

/// The words of a module behind its magic number and before its instructions, in their order (SPIR-V
/// Specification, section 2.3).
#[derive(Clone, Copy, Debug, PartialEq, Eq)]
pub struct Header {
    /// The version word, as `VERSION_1_6`.
    pub version: u32,
    /// The mark of the tool that made the module, any word.
    pub generator: u32,
    /// Above each id of the module.
    pub bound: u32,
    /// The instruction schema.
    pub schema: u32,
}
