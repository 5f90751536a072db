// The law of what uses strings.

ghost use Rattle.spv_stripped.specs.StringLaws.{ModuleUsesNoStrings};

/// In a module of the profile in normal form no instruction but OpSource, OpLine, OpName and OpMemberName uses a string,
/// neither as a value nor as a label.
pub fn strings_law()
    ensures { ModuleUsesNoStrings }
{}
