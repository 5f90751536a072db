// Facts of types and of constants, which tell the definitions from their likely mistakes.

ghost use Rattle.std.specs.Prelude.{◌≡◌, true, false, [], ◌∷◌, Option, Some, None};
ghost use Rattle.spv_opcodes.specs.declared.storage_class.TheConstants as storage_class;
ghost use Rattle.spv_meaning.specs.Types.{DataType, Array, Vector, Struct, Member, NoMember, RuntimeArray, cells, spots};
ghost use Rattle.spv_meaning.specs.Parts.{room, part};
ghost use Rattle.spv_meaning.specs.Constants.{table_of, type_at, words_at, length_at, meaning};
ghost use Rattle.spv_meaning.specs.Meanings.{Const, Cells, Spots};
ghost use Rattle.spv_meaning.specs.Facts.{uint, rows_type, mixed_type, specialising, composing, declaring};

/// A constant has words, and a type a number of words, which lie as strides and offsets say, or packed. A
/// specialisation gives words to the constants that it names, and no others; of two for one number the first counts; a
/// missing word is 0, and a boolean is 1 where the word is not 0. An array may be as long as such a constant; one of a
/// negative length has no words.
pub fn facts_of_constants()
    ensures laid { spots true (Array (Some 16) 2 (Vector 2 uint)) ≡ 0 ∷ 1 ∷ 4 ∷ 5 ∷ [] }
    ensures not_laid { spots false (Array (Some 16) 2 (Vector 2 uint)) ≡ 0 ∷ 1 ∷ 2 ∷ 3 ∷ [] }
    ensures laid_members { spots true (Struct (Member (Some 0) false uint (Member (Some 8) false uint NoMember))) ≡ 0 ∷ 2 ∷ [] }
    ensures packed_members { spots false (Struct (Member (Some 0) false uint (Member (Some 8) false uint NoMember))) ≡ 0 ∷ 1 ∷ [] }
    ensures default { words_at (table_of specialising []) 25 ≡ 4 ∷ [] }
    ensures given { words_at (table_of specialising ((7, 9 ∷ 3 ∷ []) ∷ [])) 25 ≡ 9 ∷ [] }
    ensures not_named { words_at (table_of specialising ((8, 9 ∷ []) ∷ [])) 25 ≡ 4 ∷ [] }
    ensures first { words_at (table_of specialising ((7, 9 ∷ []) ∷ (7, 8 ∷ []) ∷ [])) 25 ≡ 9 ∷ [] }
    ensures missing { words_at (table_of specialising ((7, []) ∷ [])) 25 ≡ 0 ∷ [] }
    ensures boolean { words_at (table_of specialising ((8, 9 ∷ []) ∷ [])) 27 ≡ 1 ∷ [] }
    ensures boolean_zero { words_at (table_of specialising ((8, 0 ∷ []) ∷ [])) 27 ≡ 0 ∷ [] }
    ensures boolean_default { words_at (table_of specialising []) 27 ≡ 1 ∷ [] }
    ensures array { cells (type_at (table_of specialising ((7, 9 ∷ []) ∷ [])) 26) ≡ 9 }
    ensures negative_length { length_at (table_of specialising []) 29 ≡ 0 }
    ensures unsigned_length { length_at (table_of specialising ((7, 0xFFFF_FFFF ∷ []) ∷ [])) 25 ≡ 0xFFFF_FFFF }
{}

/// What an operation makes of constants, and a composite of them, follows a specialisation, and so does an array as
/// long as one. A null and an undefined constant are zeros. What stands behind the first function is no constant.
#[tactic(auto, unfolding(crate::specs::Computations::computed, spv_value::specs::Eval::Eval, spv_value::specs::Eval::op_rules, spv_value::specs::Arith::i_add, spv_value::specs::Numbers::wrapped))]
pub fn facts_of_specialisation()
    ensures sum { words_at (table_of composing []) 31 ≡ 7 ∷ [] }
    ensures other_sum { words_at (table_of composing ((7, 9 ∷ []) ∷ [])) 31 ≡ 12 ∷ [] }
    ensures wraps { words_at (table_of composing ((7, 0xFFFF_FFFF ∷ []) ∷ [])) 31 ≡ 2 ∷ [] }
    ensures chosen { words_at (table_of composing []) 32 ≡ 4 ∷ [] }
    ensures other_chosen { words_at (table_of composing ((8, 0 ∷ []) ∷ [])) 32 ≡ 3 ∷ [] }
    ensures vector { words_at (table_of composing ((7, 9 ∷ []) ∷ [])) 33 ≡ 3 ∷ 12 ∷ [] }
    ensures component { words_at (table_of composing ((7, 9 ∷ []) ∷ [])) 34 ≡ 12 ∷ [] }
    ensures null_words { words_at (table_of composing []) 35 ≡ 0 ∷ 0 ∷ [] }
    ensures undefined { words_at (table_of composing []) 36 ≡ 0 ∷ [] }
    ensures array { cells (type_at (table_of composing ((7, 9 ∷ []) ∷ [])) 37) ≡ 12 }
    ensures in_a_function { meaning (table_of composing []) 38 ≡ None }
{}

/// Constants, sizes and positions over the instructions of a module.
#[tactic(auto, unfolding(spv_module::specs::Code::cut, spv_words::specs::Words::bytes_of_words, crate::specs::Statements::statements_in))]
pub fn facts_of_meanings()
    ensures constant { Const declaring [] 2 ≡ Some (2 ∷ []) }
    ensures no_constant { Const declaring [] 3 ≡ None }
    ensures size { Cells declaring [] 4 ≡ 3 }
    ensures in_a_buffer { Spots declaring [] 4 storage_class.STORAGE_BUFFER ≡ 0 ∷ 2 ∷ 4 ∷ [] }
    ensures in_a_block { Spots declaring [] 4 storage_class.UNIFORM ≡ 0 ∷ 2 ∷ 4 ∷ [] }
    ensures pushed { Spots declaring [] 4 storage_class.PUSH_CONSTANT ≡ 0 ∷ 2 ∷ 4 ∷ [] }
    ensures in_a_workgroup { Spots declaring [] 4 storage_class.WORKGROUP ≡ 0 ∷ 1 ∷ 2 ∷ [] }
{}

/// A part begins where strides and offsets say, or packed. A runtime array has as many elements as fit.
pub fn facts_of_parts()
    ensures laid_member { part true None mixed_type 5 1 ≡ Some (record { first = 9; type = rows_type }) }
    ensures packed_member { part false None mixed_type 5 1 ≡ Some (record { first = 6; type = rows_type }) }
    ensures no_member { part true None mixed_type 5 2 ≡ None }
    ensures laid_element { part true None rows_type 5 1 ≡ Some (record { first = 13; type = Array (Some 16) 2 uint }) }
    ensures packed_element { part false None rows_type 5 1 ≡ Some (record { first = 7; type = Array (Some 16) 2 uint }) }
    ensures no_element { part false None rows_type 5 2 ≡ None }
    ensures component { part true None (Vector 3 uint) 5 2 ≡ Some (record { first = 7; type = uint }) }
    ensures no_component { part true None (Vector 3 uint) 5 3 ≡ None }
    ensures last_that_fits { part true (Some 9) (RuntimeArray (Some 8) uint) 1 3 ≡ Some (record { first = 7; type = uint }) }
    ensures none_that_fits { part true (Some 8) (RuntimeArray (Some 8) uint) 1 3 ≡ None }
    ensures rounds_down { room (Some 8) 1 2 ≡ 3 }
    ensures ends_before { room (Some 1) 2 2 ≡ 0 }
    ensures of_a_word { part true None uint 5 0 ≡ None }
{}
