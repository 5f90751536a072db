// Facts of values and of choices by them in bodies, and of sizes under a specialisation.

ghost use Rattle.std.specs.Prelude.{◌≡◌, [], ◌∷◌, Option, Some};
ghost use Rattle.spv_opcodes.specs.declared.op.TheConstants as op;
ghost use Rattle.spv_meaning.specs.Statements as says;
ghost use Rattle.spv_meaning.specs.Computations.{Evaluates, Shuffles, CopiesLogical};
ghost use Rattle.spv_machine.specs.Setting.{FitsStatements, setting, size_in, invocations};
ghost use Rattle.spv_machine.specs.Machine.{trace_in};
ghost use Rattle.spv_machine.specs.Doubling.{on};
ghost use Rattle.spv_machine.specs.Facts.{at_word, doubling_store};
ghost use Rattle.spv_machine.specs.Shaders.{triple, stored_under, storing_value, extracting, passing_struct, joining_struct, indexing, switching, sized, by_literals, by_ids, by_constant, under};

/// Values keep their types, so that a part can be taken out of a constant, a result, what was loaded, passed, returned
/// or joined; past an array's length it is zeros. OpUndef is zeros. OpCopyObject gives words, and it gives a pointer. An
/// array is as long as its constant is under the specialisation.
#[tactic(auto, unfolding(crate::specs::Setting::setting, crate::specs::Places::locate, crate::specs::Operations::outcome, crate::specs::Steps::look, crate::specs::Steps::first_state, spv_meaning::specs::Computations::computed, spv_value::specs::Eval::Eval, spv_value::specs::Eval::op_rules))]
pub fn facts_of_values()
    ensures extracts { stored_under [] (storing_value (extracting 38 (1 ∷ 1 ∷ []) ∷ [])) ≡ (2 ∷ []) ∷ [] }
    ensures extracts_past { stored_under [] (storing_value (extracting 38 (1 ∷ 2 ∷ []) ∷ [])) ≡ (0 ∷ []) ∷ [] }
    ensures selects { stored_under [] (storing_value (says.Operation (Evaluates op.SELECT) 44 10 (35 ∷ 38 ∷ 39 ∷ []) ∷ extracting 10 (1 ∷ 1 ∷ []) ∷ [])) ≡ (2 ∷ []) ∷ [] }
    ensures selects_other { stored_under [] (storing_value (says.Operation (Evaluates op.SELECT) 44 10 (36 ∷ 38 ∷ 39 ∷ []) ∷ extracting 10 (1 ∷ 1 ∷ []) ∷ [])) ≡ (0 ∷ []) ∷ [] }
    ensures loads { stored_under [] (storing_value (says.Load 44 10 40 [] ∷ extracting 10 (1 ∷ 1 ∷ []) ∷ [])) ≡ (2 ∷ []) ∷ [] }
    ensures passes { stored_under [] passing_struct ≡ (1 ∷ []) ∷ [] }
    ensures joins { stored_under [] joining_struct ≡ (2 ∷ []) ∷ [] }
    ensures undefined { stored_under [] (storing_value (says.Undef 44 10 ∷ extracting 10 (1 ∷ 1 ∷ []) ∷ [])) ≡ (0 ∷ []) ∷ [] }
    ensures copies { (trace_in (setting (storing_value (says.CopyObject 22 10 30 ∷ says.Store 10 32 [] ∷ says.CopyObject 20 19 33 ∷ [])) (on (0 ∷ []))) 0 5 ([] ∷ [] ∷ [])).accesses ≡ doubling_store (at_word 0) 2 ∷ doubling_store (at_word 0) 3 ∷ [] }
    ensures copies_logically { stored_under [] (storing_value (says.Operation CopiesLogical 46 10 (37 ∷ []) ∷ extracting 10 (1 ∷ []) ∷ [])) ≡ (2 ∷ []) ∷ [] }
    ensures shuffles { stored_under [] (storing_value (says.Operation (Shuffles (3 ∷ 0xFFFF_FFFF ∷ [])) 42 19 (41 ∷ 41 ∷ []) ∷ [])) ≡ (2 ∷ 0 ∷ []) ∷ [] }
    ensures default_length { stored_under [] (indexing 33) ≡ (0 ∷ []) ∷ [] }
    ensures specialised_length { stored_under ((7, 4 ∷ []) ∷ []) (indexing 33) ≡ (3 ∷ []) ∷ [] }
    ensures within_length { stored_under [] (indexing 31) ≡ (3 ∷ []) ∷ [] }
{}

/// A switch goes to the first case that has its selector's word, and else to the default.
#[tactic(auto, unfolding(crate::specs::Setting::setting, crate::specs::Places::locate, crate::specs::Operations::outcome, crate::specs::Steps::look, crate::specs::Steps::first_state))]
pub fn facts_of_switches()
    ensures first_of_two { stored_under [] (switching 31) ≡ (1 ∷ []) ∷ [] }
    ensures other_case { stored_under [] (switching 32) ≡ (2 ∷ []) ∷ [] }
    ensures default { stored_under [] (switching 33) ≡ [] }
    ensures specialised { stored_under ((7, 1 ∷ []) ∷ []) (switching 34) ≡ (1 ∷ []) ∷ [] }
{}

/// Each of the three workgroup sizes under a specialisation: a constant before ids, and ids before literals, which a
/// specialisation leaves. A size or a length that becomes 0 does not fit, used or not.
#[tactic(auto, unfolding(crate::specs::Setting::setting))]
pub fn facts_of_sizes()
    ensures literals { size_in (sized (by_literals ∷ [])) (under ((7, 9 ∷ []) ∷ [])) ≡ Some (triple 7 8 9) }
    ensures ids { size_in (sized (by_literals ∷ by_ids ∷ [])) (under []) ≡ Some (triple 4 2 4) }
    ensures specialised_ids { size_in (sized (by_literals ∷ by_ids ∷ [])) (under ((7, 9 ∷ []) ∷ [])) ≡ Some (triple 9 2 9) }
    ensures constant { size_in (sized (by_literals ∷ by_ids ∷ by_constant ∷ [])) (under []) ≡ Some (triple 2 4 4) }
    ensures specialised_constant { size_in (sized (by_literals ∷ by_ids ∷ by_constant ∷ [])) (under ((8, 9 ∷ []) ∷ [])) ≡ Some (triple 9 4 4) }
    ensures count { invocations (setting (sized (by_constant ∷ [])) (under ((8, 9 ∷ []) ∷ []))) ≡ 144 }
    ensures fits { FitsStatements (sized (by_ids ∷ [])) (under []) }
    ensures zero_size { FitsStatements (sized (by_ids ∷ [])) (under ((7, 0 ∷ []) ∷ [])) → ⊥ }
    ensures zero_length { FitsStatements (sized (by_literals ∷ [])) (under ((8, 0 ∷ []) ∷ [])) → ⊥ }
{}
