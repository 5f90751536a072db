// Facts of small modules, which tell the definitions from their likely mistakes.

ghost use Rattle.std.specs.Prelude.{◌≡◌, false, [], ◌∷◌, Some, None};
ghost use Rattle.spv_opcodes.specs.declared.op.TheConstants as op;
ghost use Rattle.spv_opcodes.specs.declared.storage_class.TheConstants as storage_class;
ghost use Rattle.spv_meaning.specs.Constants.{IsConstant};
ghost use Rattle.spv_meaning.specs.Types.{Integer};
ghost use Rattle.spv_declarations.specs.Laws.{IsUnbroken};
ghost use Rattle.spv_declarations.specs.Facts.{placed, scalars, rules_in, numbers, number_before, marked, vector, integers, rules_behind};
ghost use Rattle.spv_declarations.specs.Facts.{vector_of, struct_of, array_of, spec_id, plain, plain_in_function, declared_in, operation_of};
ghost use Rattle.spv_declarations.specs.Facts.{decorated, block, offset, stride, variable};

/// Some module breaks no rule. An id is defined once, 301, and a declaration names ids that are defined before it, 302. A line mark is looked past.
/// A vector has two to four components, and an integer type stands once, 303. A type nests at most 255 deep, 309.
#[tactic(auto, unfolding(crate::specs::Broken::rules_at, crate::specs::Broken::group_3_from, spv_meaning::specs::Statements::statements_in, spv_grammar::specs::Table::row_of, spv_grammar::specs::Operands::roles_of, spv_typing::specs::Types::type_fits, spv_typing::specs::Operations::spec_op_fits, spv_decorations::specs::Targets::decoration_fits, spv_decorations::specs::Globals::global_fits))]
pub fn facts_of_types()
    ensures unbroken { IsUnbroken (placed 5 scalars) }
    ensures two_ids { rules_in (numbers 5 6) ≡ [] }
    ensures one_id { rules_in (numbers 5 5) ≡ 301 ∷ [] }
    ensures too_early { rules_in (number_before 5) ≡ 302 ∷ [] }
    ensures line_mark { rules_in marked ≡ [] }
    ensures four { rules_in (vector 4) ≡ [] }
    ensures five { rules_in (vector 5) ≡ 303 ∷ [] }
    ensures other_type { rules_in (integers 1) ≡ [] }
    ensures same_type { rules_in (integers 0) ≡ 303 ∷ [] }
    ensures deep { rules_behind 253 ≡ [] }
    ensures too_deep { rules_behind 254 ≡ 309 ∷ [] }
{}

/// A composite has a constituent for each part of its type, of the part's type, 304. An array's length is Known there,
/// and at least 1; one is Specialised that has a SpecId, or is computed of such. OpConstantComposite names no OpSpec
/// instruction. OpConstantNull is of a type without a runtime array, and so is OpUndef outside functions. What stands in
/// a function declares nothing.
#[tactic(auto, unfolding(crate::specs::Broken::rules_at, crate::specs::Broken::group_3_from, spv_meaning::specs::Statements::statements_in, spv_meaning::specs::Computations::computed, spv_value::specs::Eval::Eval, spv_value::specs::Eval::op_rules, spv_value::specs::Arith::i_add, spv_value::specs::Numbers::wrapped, spv_grammar::specs::Table::row_of, spv_grammar::specs::Operands::roles_of, spv_typing::specs::Types::type_fits, spv_typing::specs::Operations::spec_op_fits, spv_decorations::specs::Targets::decoration_fits, spv_decorations::specs::Globals::global_fits))]
pub fn facts_of_constants()
    ensures pair { rules_in (vector_of op.CONSTANT_COMPOSITE (3 ∷ 3 ∷ [])) ≡ [] }
    ensures too_few { rules_in (vector_of op.CONSTANT_COMPOSITE (3 ∷ [])) ≡ 304 ∷ [] }
    ensures too_many { rules_in (vector_of op.CONSTANT_COMPOSITE (3 ∷ 3 ∷ 3 ∷ [])) ≡ 304 ∷ [] }
    ensures other_type { rules_in (vector_of op.CONSTANT_COMPOSITE (3 ∷ 4 ∷ [])) ≡ 304 ∷ [] }
    ensures names_spec { rules_in (vector_of op.CONSTANT_COMPOSITE (3 ∷ 7 ∷ [])) ≡ 304 ∷ [] }
    ensures is_spec { rules_in (vector_of op.SPEC_CONSTANT_COMPOSITE (3 ∷ 7 ∷ [])) ≡ [] }
    ensures members { rules_in (struct_of (3 ∷ 4 ∷ [])) ≡ [] }
    ensures member_missing { rules_in (struct_of (3 ∷ [])) ≡ 304 ∷ [] }
    ensures members_exchanged { rules_in (struct_of (4 ∷ 3 ∷ [])) ≡ 304 ∷ [] }
    ensures elements { rules_in (array_of [] 3 (3 ∷ 3 ∷ [])) ≡ [] }
    ensures element_missing { rules_in (array_of [] 3 (3 ∷ [])) ≡ 304 ∷ [] }
    ensures no_elements { rules_in (array_of [] 8 []) ≡ 304 ∷ [] }
    ensures known { rules_in (array_of [] 7 (3 ∷ 3 ∷ [])) ≡ [] }
    ensures specialised { rules_in (array_of (spec_id 7 0 ∷ []) 7 (3 ∷ 3 ∷ [])) ≡ 304 ∷ [] }
    ensures other_specialised { rules_in (array_of (spec_id 7 0 ∷ []) 3 (3 ∷ 3 ∷ [])) ≡ [] }
    ensures computed { rules_in (array_of [] 9 (3 ∷ 3 ∷ 3 ∷ 3 ∷ [])) ≡ [] }
    ensures computed_of_specialised { rules_in (array_of (spec_id 7 0 ∷ []) 9 (3 ∷ 3 ∷ 3 ∷ 3 ∷ [])) ≡ 304 ∷ [] }
    ensures null_number { rules_in (plain op.CONSTANT_NULL 1) ≡ [] }
    ensures null_runtime { rules_in (plain op.CONSTANT_NULL 6) ≡ 304 ∷ [] }
    ensures true_number { rules_in (plain op.CONSTANT_TRUE 1) ≡ 304 ∷ [] }
    ensures undefined { rules_in (plain op.UNDEF 1) ≡ [] }
    ensures undefined_runtime { rules_in (plain op.UNDEF 6) ≡ 304 ∷ [] }
    ensures in_function { rules_in (plain_in_function op.UNDEF 6) ≡ [] }
    ensures declared { declared_in (plain op.UNDEF 1) 12 ≡ Some (IsConstant (Integer 32 false) (0 ∷ [])) }
    ensures not_declared { declared_in (plain_in_function op.UNDEF 1) 12 ≡ None }
{}

/// OpSpecConstantOp gives the type that its operation gives, 305. A SpecId stands on an OpSpec instruction, once and for
/// one number, 306.
#[tactic(auto, unfolding(crate::specs::Broken::rules_at, crate::specs::Broken::group_3_from, spv_meaning::specs::Statements::statements_in, spv_meaning::specs::Computations::computed, spv_value::specs::Eval::Eval, spv_value::specs::Eval::op_rules, spv_value::specs::Arith::i_add, spv_value::specs::Compare::i_equal, spv_value::specs::Numbers::wrapped, spv_grammar::specs::Table::row_of, spv_grammar::specs::Operands::roles_of, spv_typing::specs::Types::type_fits, spv_typing::specs::Operations::spec_op_fits, spv_decorations::specs::Targets::decoration_fits, spv_decorations::specs::Globals::global_fits))]
pub fn facts_of_operations()
    ensures sum { rules_in (operation_of op.I_ADD 1) ≡ [] }
    ensures sum_is_boolean { rules_in (operation_of op.I_ADD 2) ≡ 305 ∷ [] }
    ensures equal { rules_in (operation_of op.I_EQUAL 2) ≡ [] }
    ensures equal_is_number { rules_in (operation_of op.I_EQUAL 1) ≡ 305 ∷ [] }
    ensures spec_ids { rules_in (decorated (spec_id 7 0 ∷ spec_id 8 1 ∷ [])) ≡ [] }
    ensures no_spec_constant { rules_in (decorated (spec_id 3 0 ∷ [])) ≡ 306 ∷ [] }
    ensures one_number { rules_in (decorated (spec_id 7 0 ∷ spec_id 8 0 ∷ [])) ≡ 306 ∷ [] }
    ensures one_target { rules_in (decorated (spec_id 7 0 ∷ spec_id 7 1 ∷ [])) ≡ 306 ∷ [] }
{}

/// What a StorageBuffer, Uniform or PushConstant variable holds has Offsets and ArrayStrides of whole words, inside too,
/// and no boolean, 307. A variable is in the storage class of its pointer, and has an initialiser in Private alone, 308.
#[tactic(auto, unfolding(crate::specs::Broken::rules_at, crate::specs::Broken::group_3_from, spv_meaning::specs::Statements::statements_in, spv_grammar::specs::Table::row_of, spv_grammar::specs::Operands::roles_of, spv_typing::specs::Types::type_fits, spv_typing::specs::Operations::spec_op_fits, spv_decorations::specs::Targets::decoration_fits, spv_decorations::specs::Globals::global_fits))]
pub fn facts_of_variables()
    ensures laid { rules_in (block storage_class.UNIFORM 1 (offset 4 ∷ [])) ≡ [] }
    ensures uniform { rules_in (block storage_class.UNIFORM 1 []) ≡ 307 ∷ [] }
    ensures buffer { rules_in (block storage_class.STORAGE_BUFFER 1 []) ≡ 307 ∷ [] }
    ensures pushed { rules_in (block storage_class.PUSH_CONSTANT 1 []) ≡ 307 ∷ [] }
    ensures own { rules_in (block storage_class.PRIVATE 1 []) ≡ [] }
    ensures half_words { rules_in (block storage_class.UNIFORM 1 (offset 2 ∷ [])) ≡ 307 ∷ [] }
    ensures boolean { rules_in (block storage_class.UNIFORM 2 (offset 4 ∷ [])) ≡ 307 ∷ [] }
    ensures strides { rules_in (block storage_class.UNIFORM 8 (offset 4 ∷ stride 5 4 ∷ stride 8 8 ∷ [])) ≡ [] }
    ensures no_stride_inside { rules_in (block storage_class.UNIFORM 8 (offset 4 ∷ stride 8 8 ∷ [])) ≡ 307 ∷ [] }
    ensures no_stride_outside { rules_in (block storage_class.UNIFORM 8 (offset 4 ∷ stride 5 4 ∷ [])) ≡ 307 ∷ [] }
    ensures stride_of_zero { rules_in (block storage_class.UNIFORM 8 (offset 4 ∷ stride 5 4 ∷ stride 8 0 ∷ [])) ≡ 307 ∷ [] }
    ensures initialised { rules_in (variable storage_class.PRIVATE storage_class.PRIVATE (3 ∷ [])) ≡ [] }
    ensures initialised_elsewhere { rules_in (variable storage_class.WORKGROUP storage_class.WORKGROUP (3 ∷ [])) ≡ 308 ∷ [] }
    ensures other_class { rules_in (variable storage_class.PRIVATE storage_class.WORKGROUP []) ≡ 308 ∷ [] }
{}
