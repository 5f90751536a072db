// Facts of what single instructions say, which tell the rows from their likely mistakes.

ghost use Rattle.std.specs.Prelude.{◌≡◌, [], ◌∷◌, codes};
ghost use Rattle.spv_opcodes.specs.declared.op.TheConstants as op;
ghost use Rattle.spv_opcodes.specs.declared.ext.TheConstants as ext;
ghost use Rattle.spv_meaning.specs.Computations.{Evaluates, Extends, Shuffles, Constructs, Extracts, Inserts, ExtractsDynamic, InsertsDynamic, CopiesLogical};
ghost use Rattle.spv_meaning.specs.Statements as says;
ghost use Rattle.spv_meaning.specs.Statements.{statements_in};
ghost use Rattle.spv_meaning.specs.Facts.{without_row};

/// Each opcode of the instruction table has a row or says nothing anywhere, but for those that tell a machine nothing
/// (OpCapability, OpExtInstImport, OpMemoryModel, OpTypeVoid, OpTypeFunction) and the two conversions, which have no use
/// while integers have one width.
pub fn facts_of_rows()
    ensures { without_row ≡ op.CAPABILITY ∷ op.EXT_INST_IMPORT ∷ op.MEMORY_MODEL ∷ op.TYPE_VOID ∷ op.TYPE_FUNCTION ∷ op.U_CONVERT ∷ op.S_CONVERT ∷ [] }
{}

/// What stands outside functions: of a name its octets, of a mode its sizes, of a constant its words. An operation on
/// constants is that of the instruction that it names, which is no operation on constants itself. Debug instructions
/// and line marks say nothing.
#[tactic(auto, unfolding(crate::specs::Statements::statements_in, spv_words::specs::Words::bytes_of_words))]
pub fn facts_of_declarations()
    ensures entry { statements_in ((0x0006_000F ∷ 5 ∷ 1 ∷ 0x6E69_616D ∷ 0 ∷ 2 ∷ []) ∷ []) ≡ says.EntryPoint 1 (codes "main") ∷ [] }
    ensures size { statements_in ((0x0006_0010 ∷ 1 ∷ 17 ∷ 2 ∷ 3 ∷ 4 ∷ []) ∷ []) ≡ says.LocalSize 1 (2 ∷ 3 ∷ 4 ∷ []) ∷ [] }
    ensures size_by_ids { statements_in ((0x0006_014B ∷ 1 ∷ 38 ∷ 2 ∷ 3 ∷ 4 ∷ []) ∷ []) ≡ says.LocalSizeId 1 (2 ∷ 3 ∷ 4 ∷ []) ∷ [] }
    ensures not_by_ids { statements_in ((0x0006_0010 ∷ 1 ∷ 38 ∷ 2 ∷ 3 ∷ 4 ∷ []) ∷ []) ≡ says.Unknown ∷ [] }
    ensures decoration { statements_in ((0x0004_0047 ∷ 3 ∷ 33 ∷ 2 ∷ []) ∷ []) ≡ says.Decorate 3 33 (2 ∷ []) ∷ [] }
    ensures member_decoration { statements_in ((0x0005_0048 ∷ 3 ∷ 1 ∷ 35 ∷ 8 ∷ []) ∷ []) ≡ says.MemberDecorate 3 1 35 (8 ∷ []) ∷ [] }
    ensures array { statements_in ((0x0004_001C ∷ 3 ∷ 1 ∷ 2 ∷ []) ∷ []) ≡ says.TypeArray 3 1 2 ∷ [] }
    ensures pointer { statements_in ((0x0004_0020 ∷ 3 ∷ 12 ∷ 2 ∷ []) ∷ []) ≡ says.TypePointer 3 12 2 ∷ [] }
    ensures true_constant { statements_in ((0x0003_0029 ∷ 1 ∷ 2 ∷ []) ∷ []) ≡ says.Constant 1 2 (1 ∷ []) ∷ [] }
    ensures false_constant { statements_in ((0x0003_002A ∷ 1 ∷ 2 ∷ []) ∷ []) ≡ says.Constant 1 2 (0 ∷ []) ∷ [] }
    ensures specialised_false { statements_in ((0x0003_0031 ∷ 1 ∷ 2 ∷ []) ∷ []) ≡ says.SpecConstant 1 2 (0 ∷ []) ∷ [] }
    ensures specialised_composite { statements_in ((0x0005_0033 ∷ 1 ∷ 2 ∷ 3 ∷ 4 ∷ []) ∷ []) ≡ says.ConstantComposite 1 2 (3 ∷ 4 ∷ []) ∷ [] }
    ensures operation { statements_in ((0x0006_0034 ∷ 1 ∷ 2 ∷ 130 ∷ 3 ∷ 4 ∷ []) ∷ []) ≡ says.SpecConstantOp (Evaluates op.I_SUB) 1 2 (3 ∷ 4 ∷ []) ∷ [] }
    ensures extraction { statements_in ((0x0006_0034 ∷ 1 ∷ 2 ∷ 81 ∷ 3 ∷ 4 ∷ []) ∷ []) ≡ says.SpecConstantOp (Extracts (4 ∷ [])) 1 2 (3 ∷ []) ∷ [] }
    ensures no_operation { statements_in ((0x0006_0034 ∷ 1 ∷ 2 ∷ 52 ∷ 3 ∷ 4 ∷ []) ∷ []) ≡ says.Unknown ∷ [] }
    ensures variable { statements_in ((0x0005_003B ∷ 1 ∷ 2 ∷ 6 ∷ 3 ∷ []) ∷ []) ≡ says.Variable 1 2 6 (3 ∷ []) ∷ [] }
    ensures name { statements_in ((0x0003_0005 ∷ 1 ∷ 0 ∷ []) ∷ []) ≡ [] }
    ensures line { statements_in ((0x0004_0008 ∷ 1 ∷ 2 ∷ 3 ∷ []) ∷ []) ≡ [] }
    ensures no_line { statements_in ((0x0001_013D ∷ []) ∷ []) ≡ [] }
{}

/// What stands in bodies: which words are operands, literals, labels and memory operands. Branch weights and masks of
/// merge instructions say nothing. A compare and exchange has two semantics, then the value, then the comparator; an
/// increment has no value; an atomic store has no result.
#[tactic(auto, unfolding(crate::specs::Statements::statements_in))]
pub fn facts_of_instructions()
    ensures phi { statements_in ((0x0007_00F5 ∷ 1 ∷ 2 ∷ 3 ∷ 4 ∷ 5 ∷ 6 ∷ []) ∷ []) ≡ says.Phi 1 2 ((3, 4) ∷ (5, 6) ∷ []) ∷ [] }
    ensures loop_merge { statements_in ((0x0004_00F6 ∷ 1 ∷ 2 ∷ 0 ∷ []) ∷ []) ≡ says.Merge ∷ [] }
    ensures selection_merge { statements_in ((0x0003_00F7 ∷ 1 ∷ 0 ∷ []) ∷ []) ≡ says.Merge ∷ [] }
    ensures branch { statements_in ((0x0006_00FA ∷ 1 ∷ 2 ∷ 3 ∷ 8 ∷ 9 ∷ []) ∷ []) ≡ says.BranchConditional 1 2 3 ∷ [] }
    ensures switch { statements_in ((0x0007_00FB ∷ 1 ∷ 2 ∷ 3 ∷ 4 ∷ 5 ∷ 6 ∷ []) ∷ []) ≡ says.Switch 1 2 ((3, 4) ∷ (5, 6) ∷ []) ∷ [] }
    ensures returns_value { statements_in ((0x0002_00FE ∷ 1 ∷ []) ∷ []) ≡ says.ReturnValue 1 ∷ [] }
    ensures call { statements_in ((0x0006_0039 ∷ 1 ∷ 2 ∷ 3 ∷ 4 ∷ 5 ∷ []) ∷ []) ≡ says.FunctionCall 1 2 3 (4 ∷ 5 ∷ []) ∷ [] }
    ensures function { statements_in ((0x0005_0036 ∷ 1 ∷ 2 ∷ 0 ∷ 3 ∷ []) ∷ []) ≡ says.Function 2 ∷ [] }
    ensures chain { statements_in ((0x0006_0042 ∷ 1 ∷ 2 ∷ 3 ∷ 4 ∷ 5 ∷ []) ∷ []) ≡ says.AccessChain 1 2 3 (4 ∷ 5 ∷ []) ∷ [] }
    ensures load { statements_in ((0x0006_003D ∷ 1 ∷ 2 ∷ 3 ∷ 2 ∷ 4 ∷ []) ∷ []) ≡ says.Load 1 2 3 (2 ∷ 4 ∷ []) ∷ [] }
    ensures store { statements_in ((0x0005_003E ∷ 1 ∷ 2 ∷ 2 ∷ 4 ∷ []) ∷ []) ≡ says.Store 1 2 (2 ∷ 4 ∷ []) ∷ [] }
    ensures array_length { statements_in ((0x0005_0044 ∷ 1 ∷ 2 ∷ 3 ∷ 4 ∷ []) ∷ []) ≡ says.ArrayLength 1 2 3 4 ∷ [] }
    ensures barrier { statements_in ((0x0004_00E0 ∷ 1 ∷ 2 ∷ 3 ∷ []) ∷ []) ≡ says.ControlBarrier 1 2 3 ∷ [] }
    ensures fence { statements_in ((0x0003_00E1 ∷ 1 ∷ 2 ∷ []) ∷ []) ≡ says.MemoryBarrier 1 2 ∷ [] }
    ensures atomic_load { statements_in ((0x0006_00E3 ∷ 1 ∷ 2 ∷ 3 ∷ 4 ∷ 5 ∷ []) ∷ []) ≡ says.Atomic op.ATOMIC_LOAD (1 ∷ []) (2 ∷ []) 3 4 (5 ∷ []) [] ∷ [] }
    ensures atomic_store { statements_in ((0x0005_00E4 ∷ 1 ∷ 2 ∷ 3 ∷ 4 ∷ []) ∷ []) ≡ says.Atomic op.ATOMIC_STORE [] [] 1 2 (3 ∷ []) (4 ∷ []) ∷ [] }
    ensures atomic_add { statements_in ((0x0007_00EA ∷ 1 ∷ 2 ∷ 3 ∷ 4 ∷ 5 ∷ 6 ∷ []) ∷ []) ≡ says.Atomic op.ATOMIC_I_ADD (1 ∷ []) (2 ∷ []) 3 4 (5 ∷ []) (6 ∷ []) ∷ [] }
    ensures increment { statements_in ((0x0006_00E8 ∷ 1 ∷ 2 ∷ 3 ∷ 4 ∷ 5 ∷ []) ∷ []) ≡ says.Atomic op.ATOMIC_I_INCREMENT (1 ∷ []) (2 ∷ []) 3 4 (5 ∷ []) [] ∷ [] }
    ensures compare_exchange { statements_in ((0x0009_00E6 ∷ 1 ∷ 2 ∷ 3 ∷ 4 ∷ 5 ∷ 6 ∷ 7 ∷ 8 ∷ []) ∷ []) ≡ says.Atomic op.ATOMIC_COMPARE_EXCHANGE (1 ∷ []) (2 ∷ []) 3 4 (5 ∷ 6 ∷ []) (7 ∷ 8 ∷ []) ∷ [] }
    ensures extended { statements_in ((0x0007_000C ∷ 1 ∷ 2 ∷ 3 ∷ 38 ∷ 4 ∷ 5 ∷ []) ∷ []) ≡ says.Operation (Extends ext.U_MIN) 1 2 (4 ∷ 5 ∷ []) ∷ [] }
    ensures evaluated { statements_in ((0x0005_0080 ∷ 1 ∷ 2 ∷ 3 ∷ 4 ∷ []) ∷ []) ≡ says.Operation (Evaluates op.I_ADD) 1 2 (3 ∷ 4 ∷ []) ∷ [] }
    ensures selection { statements_in ((0x0006_00A9 ∷ 1 ∷ 2 ∷ 3 ∷ 4 ∷ 5 ∷ []) ∷ []) ≡ says.Operation (Evaluates op.SELECT) 1 2 (3 ∷ 4 ∷ 5 ∷ []) ∷ [] }
    ensures shuffle { statements_in ((0x0007_004F ∷ 1 ∷ 2 ∷ 3 ∷ 4 ∷ 5 ∷ 6 ∷ []) ∷ []) ≡ says.Operation (Shuffles (5 ∷ 6 ∷ [])) 1 2 (3 ∷ 4 ∷ []) ∷ [] }
    ensures construct { statements_in ((0x0005_0050 ∷ 1 ∷ 2 ∷ 3 ∷ 4 ∷ []) ∷ []) ≡ says.Operation Constructs 1 2 (3 ∷ 4 ∷ []) ∷ [] }
    ensures extract { statements_in ((0x0006_0051 ∷ 1 ∷ 2 ∷ 3 ∷ 4 ∷ 5 ∷ []) ∷ []) ≡ says.Operation (Extracts (4 ∷ 5 ∷ [])) 1 2 (3 ∷ []) ∷ [] }
    ensures insert { statements_in ((0x0006_0052 ∷ 1 ∷ 2 ∷ 3 ∷ 4 ∷ 5 ∷ []) ∷ []) ≡ says.Operation (Inserts (5 ∷ [])) 1 2 (3 ∷ 4 ∷ []) ∷ [] }
    ensures extract_dynamic { statements_in ((0x0005_004D ∷ 1 ∷ 2 ∷ 3 ∷ 4 ∷ []) ∷ []) ≡ says.Operation ExtractsDynamic 1 2 (3 ∷ 4 ∷ []) ∷ [] }
    ensures insert_dynamic { statements_in ((0x0006_004E ∷ 1 ∷ 2 ∷ 3 ∷ 4 ∷ 5 ∷ []) ∷ []) ≡ says.Operation InsertsDynamic 1 2 (3 ∷ 4 ∷ 5 ∷ []) ∷ [] }
    ensures copy { statements_in ((0x0004_0053 ∷ 1 ∷ 2 ∷ 3 ∷ []) ∷ []) ≡ says.CopyObject 1 2 3 ∷ [] }
    ensures copy_logical { statements_in ((0x0004_0190 ∷ 1 ∷ 2 ∷ 3 ∷ []) ∷ []) ≡ says.Operation CopiesLogical 1 2 (3 ∷ []) ∷ [] }
    ensures undefined { statements_in ((0x0003_0001 ∷ 1 ∷ 2 ∷ []) ∷ []) ≡ says.Undef 1 2 ∷ [] }
{}
