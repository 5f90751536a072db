// Facts of small functions, which tell the definitions from their likely mistakes.

ghost use Rattle.std.specs.Prelude.{◌≡◌, true, false, List, [], ◌∷◌, Option, Some, None};
ghost use Rattle.spv_machine.specs.State.{Words};
ghost use Rattle.spv_machine.specs.Setting.{setting};
ghost use Rattle.spv_machine.specs.Machine.{trace_in};
ghost use Rattle.spv_machine.specs.Doubling.{on};
ghost use Rattle.spv_machine.specs.Facts.{module_of, uint};
ghost use Rattle.spv_trees.specs.Standing.{AllStand};
ghost use Rattle.spv_trees.specs.Facts.{as_listed, as_parsed, as_written, calling, choosing, functions_of, placing, run, splitting, stored, swapping, switching, Does, Returned, Asks, Runs, Stuck};

/// Arms are taken by their condition, and carry their values to the merge block; a loop's parameters get theirs all at
/// once, and so many turns suffice; a loop may be an arm, and a merge block or a continue target its header; a switch
/// takes its first case, and else its default; a call drops its frame.
#[tactic(auto, unfolding(spv_machine::specs::Setting::setting, spv_machine::specs::Places::locate, spv_machine::specs::Operations::outcome, spv_meaning::specs::Statements::statements_in, spv_meaning::specs::Computations::computed, spv_value::specs::Eval::Eval, spv_value::specs::Eval::op_rules, spv_value::specs::Arith::i_add, spv_value::specs::Numbers::wrapped))]
pub fn facts_of_bodies()
    ensures first_arm { Does (run 1 1 (choosing 33) ([] ∷ [])) (1 ∷ []) (Returned None 1 []) }
    ensures second_arm { Does (run 1 1 (choosing 34) ([] ∷ [])) (2 ∷ []) (Returned None 1 []) }
    ensures out_on_true { Does (run 1 1 (splitting true 33) ([] ∷ [])) (1 ∷ []) (Returned None 1 []) }
    ensures on_past_true { Does (run 1 1 (splitting true 34) ([] ∷ [])) (2 ∷ []) (Returned None 1 []) }
    ensures out_on_false { Does (run 1 1 (splitting false 34) ([] ∷ [])) (1 ∷ []) (Returned None 1 []) }
    ensures no_value { Does (run 1 1 (choosing 99) ([] ∷ [])) [] Stuck }
    ensures no_answer { Does (run 1 1 (choosing 33) []) (1 ∷ []) Asks }
    ensures answers_left { Does (run 1 1 (choosing 33) ([] ∷ (7 ∷ []) ∷ [])) (1 ∷ []) (Returned None 1 ((7 ∷ []) ∷ [])) }
    ensures two_turns { Does (run 1 2 swapping ([] ∷ [])) (1 ∷ []) (Returned None 1 []) }
    ensures one_turn { Does (run 1 1 swapping ([] ∷ [])) [] Runs }
    ensures header_in_place { Does (run 1 2 (placing 33) ([] ∷ [] ∷ [])) (1 ∷ 2 ∷ []) (Returned None 1 []) }
    ensures loop_as_an_arm { Does (run 1 2 (placing 34) ([] ∷ [] ∷ [])) (2 ∷ 2 ∷ []) (Returned None 1 []) }
    ensures one_turn_in_place { Does (run 1 1 (placing 33) ([] ∷ [] ∷ [])) (1 ∷ []) Runs }
    ensures first_case { Does (run 1 1 (switching 31) ([] ∷ [])) (1 ∷ []) (Returned None 1 []) }
    ensures other_case { Does (run 1 1 (switching 32) ([] ∷ [])) (2 ∷ []) (Returned None 1 []) }
    ensures default { Does (run 1 1 (switching 33) ([] ∷ [])) (1 ∷ []) (Returned None 1 []) }
    ensures two_calls { Does (run 2 1 calling ([] ∷ [] ∷ [])) (3 ∷ 2 ∷ []) (Returned None 1 []) }
    ensures no_calls { Does (run 1 1 calling ([] ∷ [] ∷ [])) [] Runs }
{}

/// A module as it may be written: a block that could be joined is copies of what its OpPhi take, and the function stands
/// there, with the one that it calls; both do the same. And a module as it is listed.
#[tactic(auto, unfolding(spv_machine::specs::Setting::setting, spv_machine::specs::Places::locate, spv_machine::specs::Operations::outcome, spv_machine::specs::Steps::look, spv_machine::specs::Steps::first_state, spv_meaning::specs::Statements::statements_in, spv_meaning::specs::Computations::computed, spv_value::specs::Eval::Eval, spv_value::specs::Eval::op_rules, spv_value::specs::Arith::i_add, spv_value::specs::Numbers::wrapped))]
pub fn facts_of_standing()
    ensures stands { AllStand (module_of as_written) (functions_of as_parsed) }
    ensures listed { AllStand (as_listed swapping) (functions_of swapping) }
    ensures placed { AllStand (as_listed (placing 33)) (functions_of (placing 33)) }
    ensures by_tree { Does (run 2 1 as_parsed ([] ∷ [])) (3 ∷ []) (Returned None 1 []) }
    ensures by_machine { (trace_in (setting (module_of as_written) (on (0 ∷ []))) 0 20 ([] ∷ [])).accesses ≡ stored (3 ∷ []) }
    ensures placed_by_machine { (trace_in (setting (module_of (as_listed (placing 33))) (on (0 ∷ []))) 0 40 ([] ∷ [] ∷ [])).accesses ≡ stored (1 ∷ 2 ∷ []) }
{}
