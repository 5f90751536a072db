// Facts of small functions, which tell the definitions from their likely mistakes.

ghost use Rattle.std.specs.Prelude.{◌≡◌, ℕ, Bool, true, false, List, [], ◌∷◌, Option, Some, None};
ghost use Rattle.spv_blocks.specs.Blocks.{Code, ASelection, ASwitch, ALoop, End, Branch, BranchIf, Switch, Return, Unreachable, Open, Phi, Selection, Loop, Other};
ghost use Rattle.spv_walk.specs.Contexts.{Context, InSelection, InArm, InBody, InNext, is_exit, is_fall};
ghost use Rattle.spv_walk.specs.Faults.{merge_faults, end_rules};
ghost use Rattle.spv_walk.specs.Phis.{names_each_once, phi_faults};
ghost use Rattle.spv_walk.specs.Walk.{Enters};
ghost use Rattle.spv_walk.specs.Rules.{Broken, IsFirst};
ghost use Rattle.spv_walk.specs.Facts.{refusal, selection, one_merge_block, case_falls, case_is_merge, case_is_own_target, loop, nested, back_from_body, no_such_target, returns_in_next, own_target, own_target_named, left_out, open_block, lost};

/// A selection breaks nothing. Where two selections have one merge block, 403 is broken at both.
pub fn facts_of_selections()
    ensures fine { (is_pointer : ℕ → Bool) → IsFirst (Broken is_pointer selection) None }
    ensures outer { (is_pointer : ℕ → Bool) → IsFirst (Broken is_pointer one_merge_block) (Some (refusal 403 12)) }
    ensures inner { (is_pointer : ℕ → Bool) → Broken is_pointer one_merge_block 403 22 }
{}

/// A branch from one case of a switch to another breaks 404, and the switch enters the other case all the same. So does
/// one to a label that the switch names and that is the merge block of another construct, or a header that is its own
/// continue target.
pub fn facts_of_switches()
    ensures falls { (is_pointer : ℕ → Bool) → IsFirst (Broken is_pointer case_falls) (Some (refusal 404 28)) }
    ensures enters { Enters case_falls 1 3 }
    ensures merge_block { (is_pointer : ℕ → Bool) → IsFirst (Broken is_pointer case_is_merge) (Some (refusal 404 28)) }
    ensures own_target { (is_pointer : ℕ → Bool) → IsFirst (Broken is_pointer case_is_own_target) (Some (refusal 404 28)) }
{}

/// The first block of another case of a switch round a place: a label that the OpSwitch names, and not the one that the
/// place is behind, whatever lies between and whether or not a merge instruction names it too; but none that is an exit
/// at the OpSwitch.
pub fn facts_of_cases()
    ensures another { is_fall case_falls (InArm 1 4 2 ∷ []) 3 ≡ true }
    ensures own { is_fall case_falls (InArm 1 4 3 ∷ []) 3 ≡ false }
    ensures not_named { is_fall case_falls (InArm 1 4 2 ∷ []) 5 ≡ false }
    ensures merge_elsewhere { is_fall case_is_merge (InArm 6 7 2 ∷ []) 5 ≡ true }
    ensures merge { is_fall case_falls (InArm 1 4 2 ∷ []) 4 ≡ false }
    ensures leaves_loop { is_fall case_falls (InArm 1 4 2 ∷ InBody 8 3 9 ∷ []) 3 ≡ false }
    ensures to_next { is_fall case_falls (InArm 1 4 2 ∷ InSelection 5 ∷ InBody 8 9 3 ∷ []) 3 ≡ false }
    ensures in_next { is_fall case_falls (InArm 1 4 2 ∷ InNext 8 9 ∷ InBody 6 3 9 ∷ []) 3 ≡ true }
    ensures outer_switch { is_fall case_falls (InArm 8 9 7 ∷ InArm 1 4 2 ∷ []) 3 ≡ true }
    ensures between { is_fall case_falls (InSelection 9 ∷ InBody 7 8 9 ∷ InArm 1 4 2 ∷ []) 3 ≡ true }
    ensures inner_loop { is_fall case_falls (InBody 7 3 8 ∷ InArm 1 4 2 ∷ []) 3 ≡ true }
{}

/// A loop breaks nothing, nor does one with a loop in its continue part. Where a body branches to its own loop's header, 402 is broken first, at the branch into the
/// loop. A continue target that is no label breaks 403 at its OpLoopMerge. A return in a continue part breaks 405, and
/// 405 is broken first at the OpLoopMerge, since the continue part has no back edge. Where a header is its own continue
/// target, 405 is broken there, and nothing behind it is looked at.
pub fn facts_of_loops()
    ensures fine { (is_pointer : ℕ → Bool) → IsFirst (Broken is_pointer loop) None }
    ensures nested { (is_pointer : ℕ → Bool) → IsFirst (Broken is_pointer nested) None }
    ensures from_body { (is_pointer : ℕ → Bool) → IsFirst (Broken is_pointer back_from_body) (Some (refusal 402 18)) }
    ensures no_label { (is_pointer : ℕ → Bool) → IsFirst (Broken is_pointer no_such_target) (Some (refusal 403 22)) }
    ensures returns { (is_pointer : ℕ → Bool) → Broken is_pointer returns_in_next 405 48 }
    ensures own_target { (is_pointer : ℕ → Bool) → Broken is_pointer own_target 405 22 }
    ensures only_that { (is_pointer : ℕ → Bool) (rule at : ℕ) → Broken is_pointer own_target rule at → (rule ≡ 405) × (at ≡ 22) }
    ensures no_back_edge { (is_pointer : ℕ → Bool) → IsFirst (Broken is_pointer returns_in_next) (Some (refusal 405 22)) }
{}

/// A block that is never entered breaks 402 at its label, and nothing else is broken first. A block without a terminator
/// breaks 401, though nothing branches to it. Where three rules are broken at one place, the least is the first.
pub fn facts_of_entering()
    ensures least_rule { (is_pointer : ℕ → Bool) → IsFirst (Broken is_pointer lost) (Some (refusal 402 18)) }
    ensures bare_too { (is_pointer : ℕ → Bool) → Broken is_pointer lost 407 18 }
    ensures same_labels_too { (is_pointer : ℕ → Bool) → Broken is_pointer lost 408 18 }
    ensures unended { (is_pointer : ℕ → Bool) → Broken is_pointer open_block 401 28 }
    ensures first { (is_pointer : ℕ → Bool) → IsFirst (Broken is_pointer left_out) (Some (refusal 402 20)) }
{}

/// The exits of a place: the merge block of the innermost selection or switch, that of the innermost switch where no
/// loop lies between, and the merge block and the continue target of the innermost loop from its body. From its
/// continue part its header is one where no construct lies between, and its merge block in a branch to both.
pub fn facts_of_exits()
    ensures selection { (c : Context) (e : End) → is_exit (InSelection 4 ∷ c) e 4 ≡ true }
    ensures outer_selection { (e : End) → is_exit (InSelection 4 ∷ InSelection 9 ∷ []) e 9 ≡ false }
    ensures switch { (c : Context) (e : End) → is_exit (InSelection 4 ∷ InArm 1 9 2 ∷ c) e 9 ≡ true }
    ensures outer_switch { (e : End) → is_exit (InArm 3 4 5 ∷ InArm 1 9 2 ∷ []) e 9 ≡ false }
    ensures switch_round_loop { (e : End) → is_exit (InBody 3 5 4 ∷ InArm 1 9 2 ∷ []) e 9 ≡ false }
    ensures loop_merge { (c : Context) (e : End) → is_exit (InArm 3 9 7 ∷ InBody 2 5 4 ∷ c) e 5 ≡ true }
    ensures loop_next { (c : Context) (e : End) → is_exit (InSelection 9 ∷ InBody 2 5 4 ∷ c) e 4 ≡ true }
    ensures outer_loop { (e : End) → is_exit (InBody 6 8 7 ∷ InBody 2 5 4 ∷ []) e 5 ≡ false }
    ensures body_to_header { (e : End) → is_exit (InBody 2 5 4 ∷ []) e 2 ≡ false }
    ensures next_to_header { (c : Context) (e : End) → is_exit (InNext 2 5 ∷ c) e 2 ≡ true }
    ensures next_to_merge { (e : ℕ) → is_exit (InNext 2 5 ∷ []) (Branch e) 5 ≡ false }
    ensures back_pair { (c : Context) → is_exit (InNext 2 5 ∷ c) (BranchIf 5 2) 5 ≡ true }
    ensures no_back_pair { is_exit (InNext 2 5 ∷ []) (BranchIf 5 3) 5 ≡ false }
    ensures selection_in_next { (e : End) → is_exit (InSelection 9 ∷ InNext 2 5 ∷ []) e 2 ≡ false }
    ensures outer_loop_from_next { (e : End) → is_exit (InNext 6 8 ∷ InBody 2 5 4 ∷ []) e 4 ≡ false }
{}

/// The rules at a terminator: 407, 408 and 410 at an OpBranchConditional, 402 and 403 at an OpSwitch, and 405 at a
/// return or an OpUnreachable anywhere in a continue part.
pub fn facts_of_terminators()
    ensures bare { end_rules None (InSelection 4 ∷ []) (BranchIf 2 3) ≡ 407 ∷ [] }
    ensures bare_with_exit { end_rules None (InSelection 4 ∷ []) (BranchIf 2 4) ≡ [] }
    ensures same_labels { (c : Context) → end_rules (Some (ASelection 4)) c (BranchIf 2 2) ≡ 408 ∷ [] }
    ensures header_leaves { (c : Context) → end_rules (Some (ALoop 5 4)) c (BranchIf 3 5) ≡ [] }
    ensures header_stays { (c : Context) → end_rules (Some (ALoop 5 4)) c (BranchIf 3 4) ≡ 410 ∷ [] }
    ensures header_only_leaves { (c : Context) → end_rules (Some (ALoop 5 4)) c (BranchIf 5 5) ≡ 408 ∷ 410 ∷ [] }
    ensures switch { (c : Context) → end_rules (Some (ASwitch 4)) c (Switch 4 ((0, 2) ∷ (1, 2) ∷ [])) ≡ [] }
    ensures literal_twice { (c : Context) → end_rules (Some (ASwitch 4)) c (Switch 4 ((0, 2) ∷ (1, 3) ∷ (0, 4) ∷ [])) ≡ 402 ∷ [] }
    ensures bare_switch { (c : Context) → end_rules None c (Switch 4 ((0, 2) ∷ [])) ≡ 403 ∷ [] }
    ensures loop_before_switch { (c : Context) → end_rules (Some (ALoop 5 4)) c (Switch 4 ((0, 2) ∷ [])) ≡ 403 ∷ [] }
    ensures in_next { (c : Context) → end_rules None (InSelection 9 ∷ InBody 6 8 7 ∷ InNext 2 5 ∷ c) Return ≡ 405 ∷ [] }
    ensures unreachable_in_next { (c : Context) → end_rules None (InNext 2 5 ∷ c) Unreachable ≡ 405 ∷ [] }
    ensures in_body { end_rules None (InBody 2 5 4 ∷ []) Return ≡ [] }
{}

/// The rules at a merge instruction: 403 where it is not the last before its terminator, where its terminator is
/// another, where OpLoopMerge stands in the first block, and where its merge block or its continue target is none;
/// 405 alone where the continue target is the header, and 403 beside it where another merge instruction names that too.
pub fn facts_of_merge_instructions()
    ensures selection_fits { merge_faults selection 1 (BranchIf 2 3) (Selection 12 4 ∷ []) ≡ [] }
    ensures not_last { merge_faults selection 1 (BranchIf 2 3) (Selection 12 4 ∷ Other 15 ∷ []) ≡ refusal 403 12 ∷ [] }
    ensures before_branch { merge_faults selection 1 (Branch 2) (Selection 12 4 ∷ []) ≡ refusal 403 12 ∷ [] }
    ensures before_nothing { merge_faults selection 1 Open (Selection 12 4 ∷ []) ≡ refusal 403 12 ∷ [] }
    ensures loop_fits { merge_faults loop 2 (Branch 3) (Loop 22 5 4 ∷ []) ≡ [] }
    ensures loop_before_switch { merge_faults loop 2 (Switch 3 []) (Loop 22 5 4 ∷ []) ≡ refusal 403 22 ∷ [] }
    ensures in_first_block { merge_faults loop 1 (Branch 3) (Loop 12 5 4 ∷ []) ≡ refusal 403 12 ∷ [] }
    ensures merge_is_first { merge_faults loop 2 (Branch 3) (Loop 22 1 4 ∷ []) ≡ refusal 403 22 ∷ [] }
    ensures merge_is_header { merge_faults loop 5 (Branch 3) (Loop 52 5 4 ∷ []) ≡ refusal 403 52 ∷ [] }
    ensures merge_is_not_named_once { merge_faults loop 2 (Branch 3) (Loop 22 3 4 ∷ []) ≡ refusal 403 22 ∷ [] }
    ensures next_is_header { merge_faults own_target 2 (BranchIf 9 9) (Loop 22 3 2 ∷ []) ≡ refusal 405 22 ∷ [] }
    ensures next_is_header_and_merge { merge_faults own_target_named 2 (BranchIf 9 9) (Loop 22 3 2 ∷ []) ≡ refusal 403 22 ∷ refusal 405 22 ∷ [] }
{}

/// The rule on OpPhi: it stands at the front of a block that is not the first, its type is no pointer, and it names each
/// block that branches to its own once, in any order, and no other.
pub fn facts_of_phis()
    ensures in_any_order { names_each_once (2 ∷ 3 ∷ []) (3 ∷ 2 ∷ []) ≡ true }
    ensures one_missing { names_each_once (2 ∷ 3 ∷ []) (3 ∷ []) ≡ false }
    ensures one_twice { names_each_once (2 ∷ 3 ∷ []) (2 ∷ 3 ∷ 2 ∷ []) ≡ false }
    ensures another { names_each_once (2 ∷ 3 ∷ []) (2 ∷ 3 ∷ 4 ∷ []) ≡ false }
    ensures none { names_each_once [] [] ≡ true }
    ensures fits { phi_faults (λ t. false) selection 4 (Phi 41 7 8 ((20, 2) ∷ (20, 3) ∷ []) ∷ Other 48 ∷ []) ≡ [] }
    ensures of_pointers { phi_faults (λ t. true) selection 4 (Phi 41 7 8 ((20, 2) ∷ (20, 3) ∷ []) ∷ []) ≡ refusal 406 41 ∷ [] }
    ensures values_are_no_blocks { phi_faults (λ t. false) selection 4 (Phi 41 7 8 ((2, 20) ∷ (3, 20) ∷ []) ∷ []) ≡ refusal 406 41 ∷ [] }
    ensures in_first_block { phi_faults (λ t. false) selection 1 (Phi 11 7 8 [] ∷ []) ≡ refusal 406 11 ∷ [] }
    ensures late { phi_faults (λ t. false) selection 4 (Other 41 ∷ Phi 42 7 8 ((20, 2) ∷ (20, 3) ∷ []) ∷ []) ≡ refusal 406 42 ∷ [] }
{}
