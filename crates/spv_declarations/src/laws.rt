// The laws of modules that break no rule of the third group, which are the rules from 301 to 309.

ghost use Rattle.spv_declarations.specs.Laws.{DeclaresMeanings, NoneBroken};
ghost use Rattle.spv_declarations.specs.Laws.{TypesStand, OnlyTypesStand, TypesNest, ShapesStand, VariablesLaid};
ghost use Rattle.spv_declarations.specs.Laws.{ConstantsStand, OnlyConstantsStand, IntegersHaveOneWord, BooleansAreBits, ConstantsFit};

/// What the instructions of any module declare, one after the other up to the first function, is what its ids stand for
/// where it is not specialised. Where a module breaks no rule, none of its instructions does, judged by what those
/// before it declare.
pub fn declarations_law()
    ensures meanings { DeclaresMeanings }
    ensures unbroken { NoneBroken }
{}

/// In a module that breaks no rule a type outside functions stands for what its instruction says: a boolean, an integer
/// of 32 bits, a vector, an array or a struct of the types that it names. Nothing but a data type or a runtime array
/// stands for a type. A type nests at most 255 deep. A scalar or a vector has from one to four components, a word each.
/// What a StorageBuffer, Uniform or PushConstant variable points to is laid out.
pub fn types_law()
    ensures stands { TypesStand }
    ensures only { OnlyTypesStand }
    ensures nests { TypesNest }
    ensures shapes { ShapesStand }
    ensures laid { VariablesLaid }
{}

/// In a module that breaks no rule a constant outside functions has the type that its instruction names, and as many
/// words as a value of that type. Nothing else stands for a constant. An integer has one word, as the length of an
/// array does; the words of booleans are 0 or 1; and a word is below 2 ^ 32 where the words of the module are.
pub fn constants_law()
    ensures stands { ConstantsStand }
    ensures only { OnlyConstantsStand }
    ensures one_word { IntegersHaveOneWord }
    ensures bits { BooleansAreBits }
    ensures fits { ConstantsFit }
{}
