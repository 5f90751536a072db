// Which types match, by the instructions that declare them, and which lengths of arrays are Known.

ghost use Rattle.spv_composites.specs.Laws.{PlainsMatch, ArraysMatch, StructsMatch, OthersDiffer, LengthsAgree};

/// In a module that breaks no rule of the third group types outside functions match by what their instructions say:
/// scalars and vectors where they are one type, arrays where their lengths are the same and their elements match, structs
/// where they have as many members and these match one by one, and no others.
pub fn matches_law()
    ensures plains { PlainsMatch }
    ensures arrays { ArraysMatch }
    ensures structs { StructsMatch }
    ensures others { OthersDiffer }
{}

/// In a module that breaks no rule of the third group the length of an array type outside functions is Known to the
/// operands of OpCompositeConstruct exactly where it is to the constituents of a constant, and is the same.
pub fn lengths_law()
    ensures { LengthsAgree }
{}
