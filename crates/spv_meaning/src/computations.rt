// Facts of what operations make of typed words, which tell the definitions from their likely mistakes.

ghost use Rattle.std.specs.Prelude.{◌≡◌, false, [], ◌∷◌, Option, Some, None};
ghost use Rattle.spv_opcodes.specs.declared.op.TheConstants as op;
ghost use Rattle.spv_opcodes.specs.declared.ext.TheConstants as ext;
ghost use Rattle.spv_meaning.specs.Types.{Boolean, Vector, Array, Struct, Member, NoMember};
ghost use Rattle.spv_meaning.specs.Computations.{Evaluates, Extends, Shuffles, Constructs, Extracts, Inserts, ExtractsDynamic, InsertsDynamic, CopiesLogical, computed};
ghost use Rattle.spv_meaning.specs.Facts.{uint, rows_type, mixed_type, typed, word};

/// A selection takes whole composites by one condition, and components by a vector of them. A shuffle counts on from
/// the first vector to the second, and 0xFFFFFFFF gives 0. The parts of a composite are packed. Past an array's length
/// an extract gives zeros and an insert leaves the value, and so with an index outside a vector. What is copied
/// logically keeps its words. A sum with carry is two words.
#[tactic(auto, unfolding(crate::specs::Computations::computed, spv_value::specs::Eval::Eval, spv_value::specs::Eval::op_rules, spv_value::specs::Arith::i_add, spv_value::specs::Arith::carry, spv_value::specs::Compare::select, spv_value::specs::Numbers::wrapped))]
pub fn facts_of_computations()
    ensures selects_struct { computed (Evaluates op.SELECT) mixed_type (typed Boolean (1 ∷ []) ∷ typed mixed_type (1 ∷ 2 ∷ 3 ∷ 4 ∷ 5 ∷ []) ∷ typed mixed_type (6 ∷ 7 ∷ 8 ∷ 9 ∷ 10 ∷ []) ∷ []) ≡ 1 ∷ 2 ∷ 3 ∷ 4 ∷ 5 ∷ [] }
    ensures selects_other { computed (Evaluates op.SELECT) mixed_type (typed Boolean (0 ∷ []) ∷ typed mixed_type (1 ∷ 2 ∷ 3 ∷ 4 ∷ 5 ∷ []) ∷ typed mixed_type (6 ∷ 7 ∷ 8 ∷ 9 ∷ 10 ∷ []) ∷ []) ≡ 6 ∷ 7 ∷ 8 ∷ 9 ∷ 10 ∷ [] }
    ensures selects_components { computed (Evaluates op.SELECT) (Vector 2 uint) (typed (Vector 2 Boolean) (0 ∷ 1 ∷ []) ∷ typed (Vector 2 uint) (1 ∷ 2 ∷ []) ∷ typed (Vector 2 uint) (3 ∷ 4 ∷ []) ∷ []) ≡ 3 ∷ 2 ∷ [] }
    ensures shuffles { computed (Shuffles (2 ∷ 0xFFFF_FFFF ∷ 1 ∷ 4 ∷ [])) (Vector 4 uint) (typed (Vector 2 uint) (5 ∷ 6 ∷ []) ∷ typed (Vector 3 uint) (7 ∷ 8 ∷ 9 ∷ []) ∷ []) ≡ 7 ∷ 0 ∷ 6 ∷ 9 ∷ [] }
    ensures constructs { computed Constructs (Vector 3 uint) (typed (Vector 2 uint) (5 ∷ 6 ∷ []) ∷ word 7 ∷ []) ≡ 5 ∷ 6 ∷ 7 ∷ [] }
    ensures extracts { computed (Extracts (1 ∷ 1 ∷ 0 ∷ [])) uint (typed mixed_type (1 ∷ 2 ∷ 3 ∷ 4 ∷ 5 ∷ []) ∷ []) ≡ 4 ∷ [] }
    ensures extracts_array { computed (Extracts (1 ∷ 1 ∷ [])) (Array (Some 16) 2 uint) (typed mixed_type (1 ∷ 2 ∷ 3 ∷ 4 ∷ 5 ∷ []) ∷ []) ≡ 4 ∷ 5 ∷ [] }
    ensures extracts_component { computed (Extracts (2 ∷ [])) uint (typed (Vector 3 uint) (1 ∷ 2 ∷ 3 ∷ []) ∷ []) ≡ 3 ∷ [] }
    ensures extracts_past { computed (Extracts (1 ∷ 2 ∷ [])) (Array (Some 16) 2 uint) (typed mixed_type (1 ∷ 2 ∷ 3 ∷ 4 ∷ 5 ∷ []) ∷ []) ≡ 0 ∷ 0 ∷ [] }
    ensures extracts_past_inner { computed (Extracts (1 ∷ 0 ∷ 2 ∷ [])) uint (typed mixed_type (1 ∷ 2 ∷ 3 ∷ 4 ∷ 5 ∷ []) ∷ []) ≡ 0 ∷ [] }
    ensures inserts { computed (Inserts (1 ∷ 1 ∷ 0 ∷ [])) mixed_type (word 9 ∷ typed mixed_type (1 ∷ 2 ∷ 3 ∷ 4 ∷ 5 ∷ []) ∷ []) ≡ 1 ∷ 2 ∷ 3 ∷ 9 ∷ 5 ∷ [] }
    ensures inserts_array { computed (Inserts (1 ∷ 0 ∷ [])) mixed_type (typed (Array (Some 16) 2 uint) (8 ∷ 9 ∷ []) ∷ typed mixed_type (1 ∷ 2 ∷ 3 ∷ 4 ∷ 5 ∷ []) ∷ []) ≡ 1 ∷ 8 ∷ 9 ∷ 4 ∷ 5 ∷ [] }
    ensures inserts_past { computed (Inserts (1 ∷ 0 ∷ 2 ∷ [])) mixed_type (word 9 ∷ typed mixed_type (1 ∷ 2 ∷ 3 ∷ 4 ∷ 5 ∷ []) ∷ []) ≡ 1 ∷ 2 ∷ 3 ∷ 4 ∷ 5 ∷ [] }
    ensures extracts_at { computed ExtractsDynamic uint (typed (Vector 3 uint) (1 ∷ 2 ∷ 3 ∷ []) ∷ word 2 ∷ []) ≡ 3 ∷ [] }
    ensures extracts_outside { computed ExtractsDynamic uint (typed (Vector 3 uint) (1 ∷ 2 ∷ 3 ∷ []) ∷ word 3 ∷ []) ≡ 0 ∷ [] }
    ensures extracts_negative { computed ExtractsDynamic uint (typed (Vector 3 uint) (1 ∷ 2 ∷ 3 ∷ []) ∷ word 0xFFFF_FFFF ∷ []) ≡ 0 ∷ [] }
    ensures inserts_at { computed InsertsDynamic (Vector 3 uint) (typed (Vector 3 uint) (1 ∷ 2 ∷ 3 ∷ []) ∷ word 9 ∷ word 1 ∷ []) ≡ 1 ∷ 9 ∷ 3 ∷ [] }
    ensures inserts_outside { computed InsertsDynamic (Vector 3 uint) (typed (Vector 3 uint) (1 ∷ 2 ∷ 3 ∷ []) ∷ word 9 ∷ word 3 ∷ []) ≡ 1 ∷ 2 ∷ 3 ∷ [] }
    ensures copies { computed CopiesLogical (Array (Some 4) 2 uint) (typed (Array (Some 16) 2 uint) (1 ∷ 2 ∷ []) ∷ []) ≡ 1 ∷ 2 ∷ [] }
    ensures carries { computed (Evaluates op.I_ADD_CARRY) (Struct (Member None false uint (Member None false uint NoMember))) (word 0xFFFF_FFFF ∷ word 3 ∷ []) ≡ 2 ∷ 1 ∷ [] }
{}

/// The eleven instructions of GLSL.std.450 by their numbers, on words read as signed where they are named so.
#[tactic(auto, unfolding(crate::specs::Computations::computed, spv_value::specs::Eval::ExtEval, spv_value::specs::Eval::ext_rules, spv_value::specs::Ext::s_abs, spv_value::specs::Ext::s_sign, spv_value::specs::Ext::u_min, spv_value::specs::Ext::s_min, spv_value::specs::Ext::u_max, spv_value::specs::Ext::s_max, spv_value::specs::Ext::u_clamp, spv_value::specs::Ext::s_clamp, spv_value::specs::Bits::find_i_lsb, spv_value::specs::Bits::find_s_msb, spv_value::specs::Bits::find_u_msb, spv_value::specs::Bits::bits_of, spv_value::specs::Numbers::signed, spv_value::specs::Numbers::wrapped))]
pub fn facts_of_extended_instructions()
    ensures absolute { computed (Extends ext.S_ABS) (Vector 2 uint) (typed (Vector 2 uint) (0xFFFF_FFFB ∷ 0x8000_0000 ∷ []) ∷ []) ≡ 5 ∷ 0x8000_0000 ∷ [] }
    ensures sign { computed (Extends ext.S_SIGN) (Vector 3 uint) (typed (Vector 3 uint) (0xFFFF_FFFB ∷ 0 ∷ 7 ∷ []) ∷ []) ≡ 0xFFFF_FFFF ∷ 0 ∷ 1 ∷ [] }
    ensures unsigned_min { computed (Extends ext.U_MIN) uint (word 0xFFFF_FFFF ∷ word 3 ∷ []) ≡ 3 ∷ [] }
    ensures signed_min { computed (Extends ext.S_MIN) uint (word 0xFFFF_FFFF ∷ word 3 ∷ []) ≡ 0xFFFF_FFFF ∷ [] }
    ensures unsigned_max { computed (Extends ext.U_MAX) uint (word 0xFFFF_FFFF ∷ word 3 ∷ []) ≡ 0xFFFF_FFFF ∷ [] }
    ensures signed_max { computed (Extends ext.S_MAX) uint (word 0xFFFF_FFFF ∷ word 3 ∷ []) ≡ 3 ∷ [] }
    ensures unsigned_clamp { computed (Extends ext.U_CLAMP) uint (word 0xFFFF_FFFF ∷ word 3 ∷ word 9 ∷ []) ≡ 9 ∷ [] }
    ensures signed_clamp { computed (Extends ext.S_CLAMP) uint (word 0xFFFF_FFFF ∷ word 3 ∷ word 9 ∷ []) ≡ 3 ∷ [] }
    ensures bounds_turned { computed (Extends ext.U_CLAMP) uint (word 5 ∷ word 9 ∷ word 3 ∷ []) ≡ 3 ∷ [] }
    ensures lowest { computed (Extends ext.FIND_I_LSB) (Vector 2 uint) (typed (Vector 2 uint) (12 ∷ 0 ∷ []) ∷ []) ≡ 2 ∷ 0xFFFF_FFFF ∷ [] }
    ensures highest { computed (Extends ext.FIND_U_MSB) (Vector 2 uint) (typed (Vector 2 uint) (12 ∷ 0xFFFF_FFFF ∷ []) ∷ []) ≡ 3 ∷ 31 ∷ [] }
    ensures signed_highest { computed (Extends ext.FIND_S_MSB) (Vector 2 uint) (typed (Vector 2 uint) (12 ∷ 0xFFFF_FFFB ∷ []) ∷ []) ≡ 3 ∷ 2 ∷ [] }
{}
