ghost use Rattle.std.specs.Prelude.{◌≡◌};

/// What part a word plays in its instruction.
#[derive(Clone, Copy, Debug, PartialEq, Eq)]
pub enum Role {
    /// The first word: the word count and the opcode.
    Opcode,
    /// The id of the result's type.
    TypeId,
    /// The id that the instruction defines.
    DefinedId,
    /// The id of an operand.
    UsedId,
    /// A number, an enumerant, a mask or an inner opcode.
    Literal,
    /// Four octets of a string, its end and its padding included.
    Octets,
    /// An enumerant or a mask that the profile does not have, or four octets of an import's name that it does
    /// not have.
    UnknownEnumerant,
    /// Four octets of what should be a string and is none: it has no octet of zero, is not UTF-8, or is padded
    /// with another octet than zero.
    BadOctets,
}

impl Role {
    ghost use Rattle.spv_grammar.specs.Roles.{is_type_id as type_role, is_defined_id as defined_role, is_used_id as used_role, names_id as id_role, is_front as front_role, is_unknown as unknown_role, is_bad_octets as bad_role};

    /// Whether the word is the id of the result's type.
    pub fn is_type_id(self) -> bool
        ensures { result ≡ type_role self }
    {
        matches!(self, Role::TypeId)
    }

    /// Whether the word is the id that the instruction defines.
    pub fn is_defined_id(self) -> bool
        ensures { result ≡ defined_role self }
    {
        matches!(self, Role::DefinedId)
    }

    /// Whether the word is the id of an operand.
    pub fn is_used_id(self) -> bool
        ensures { result ≡ used_role self }
    {
        matches!(self, Role::UsedId)
    }

    /// Whether the word is the id of a type, a result or an operand.
    pub fn names_id(self) -> bool
        ensures { result ≡ id_role self }
    {
        matches!(self, Role::TypeId | Role::DefinedId | Role::UsedId)
    }

    /// Whether the word stands in front of the operands: the first word, the result's type or the result.
    pub fn is_front(self) -> bool
        ensures { result ≡ front_role self }
    {
        matches!(self, Role::Opcode | Role::TypeId | Role::DefinedId)
    }

    /// Whether the word is an enumerant, a mask or a part of an import's name that the profile does not have.
    pub fn is_unknown(self) -> bool
        ensures { result ≡ unknown_role self }
    {
        matches!(self, Role::UnknownEnumerant)
    }

    /// Whether the word belongs to what should be a string and is none.
    pub fn is_bad_octets(self) -> bool
        ensures { result ≡ bad_role self }
    {
        matches!(self, Role::BadOctets)
    }
}

/// The enumerants and masks that take one word, with those that the profile has.
#[derive(Clone, Copy, Debug, PartialEq, Eq)]
pub enum Enumerant {
    /// Shader.
    Capability,
    /// Logical.
    AddressingModel,
    /// GLSL450.
    MemoryModel,
    /// GLCompute.
    ExecutionModel,
    /// The execution mode that literal words follow: LocalSize.
    LiteralMode,
    /// The execution mode that ids follow: LocalSizeId.
    IdMode,
    /// Input, Uniform, Workgroup, Private, Function, PushConstant or StorageBuffer.
    StorageClass,
    /// Any of the bits Inline, DontInline, Pure and Const.
    FunctionControl,
    /// Any of the bits Unroll and DontUnroll.
    LoopControl,
    /// Any of the bits Flatten and DontFlatten.
    SelectionControl,
}

/// An operand of an instruction, which takes some of the words in front. Each word is an id or a literal word
/// of 32 bits, but for strings, which take whole words.
#[derive(Clone, Copy, Debug, PartialEq, Eq)]
pub enum Kind {
    /// The id of the result's type.
    ResultType,
    /// The id that the instruction defines.
    ResultId,
    /// An id.
    Id,
    /// An id that may be absent.
    OptionalId,
    /// Ids, at most this many. No instruction has more than 65,534 words behind its first, so `u16::MAX` is any
    /// number.
    Ids(u16),
    /// Any number of pairs of ids.
    IdPairs,
    /// A literal word.
    Number,
    /// One or more literal words.
    SomeNumbers,
    /// Any number of literal words.
    Numbers,
    /// No or two literal words.
    Weights,
    /// Pairs of a literal word and an id, at most this many.
    Cases(u16),
    /// A string.
    Text,
    /// A string that may be absent.
    OptionalText,
    /// A string that names an extended instruction set.
    SetName,
    /// An enumerant or a mask of one word.
    One(Enumerant),
    /// A mask of memory operands, which may be absent, with the literal word that its bit Aligned asks for.
    MemoryOperands,
    /// A decoration with its literal word, if it has one; any words behind a decoration that the profile does
    /// not have.
    Decoration,
    /// The number of an extended instruction, with the ids of its operands; any ids behind a number that the
    /// profile does not have.
    ExtInst,
}
