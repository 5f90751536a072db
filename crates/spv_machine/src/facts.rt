// Facts of small shaders, which tell the definitions from their likely mistakes.

ghost use Rattle.std.specs.Prelude.{◌≡◌, ℕ, ◌<◌, ◌%◌, ◌^◌, not, true, false, List, [], ◌∷◌, ◌⊎◌, filter, codes, Option, Some, None};
ghost use Rattle.interleaving.specs.Trace.{Returned, Runs, Stuck, ended};
ghost use Rattle.spv_opcodes.specs.declared.op.TheConstants as op;
ghost use Rattle.spv_opcodes.specs.declared.builtin.TheConstants as builtin;
ghost use Rattle.spv_opcodes.specs.declared.storage_class.TheConstants as storage_class;
ghost use Rattle.spv_value.specs.Arith.{i_mul};
ghost use Rattle.spv_meaning.specs.Statements.{LocalSize, is_debug};
ghost use Rattle.spv_machine.specs.Access.{Fences, Barriers};
ghost use Rattle.spv_machine.specs.State.{read_held};
ghost use Rattle.spv_meaning.specs.Types.{Array, RuntimeArray, Vector, Struct, Member, NoMember};
ghost use Rattle.spv_machine.specs.Places.{Buffer, Uniform, Push, Workgroup, Private, object_at, locate, and_then};
ghost use Rattle.spv_machine.specs.Dispatch.{Bound, Dispatch, IsDispatch};
ghost use Rattle.spv_meaning.specs.Constants.{table_of};
ghost use Rattle.spv_machine.specs.Setting.{size_for, builtin_words, workgroup_id, local_id};
ghost use Rattle.spv_machine.specs.Effects.{Shared, after, answer, is_barrier};
ghost use Rattle.spv_machine.specs.Steps.{first_state};
ghost use Rattle.spv_machine.specs.Machine.{Fits, workgroup_size, Trace, Ends, Finals, setting_of, PrivateStep, Standing};
ghost use Rattle.spv_machine.specs.Laws.{KeepsWords, MeansSame};
ghost use Rattle.spv_machine.specs.Doubling.{doubling, stripped, doubling_by_two, doubling_one_word, doubling_behind, doubling_apart, doubling_twice, volatile_variable, volatile_member, volatile_load, unsized, squaring, store_dropped, constant_changed, body_swapped, offset_dropped, stride_dropped, on, buffer};
ghost use Rattle.spv_machine.specs.Facts.{one_by_one, volatilities, at_word, doubling_load, doubling_store, atomic, storing, loading, holding, group, uint, pairs_type, pairs, alone_in, swapping, calling, beginning, ordering, order, passing, unknown, sized_by_modes, sized_by_constant, reading, no_data, at_words};

/// The doubling shader leaves the buffer 5, 6, 7 as 10, 12, 14, before and after its debug instructions are dropped,
/// though most of its 64 invocations are past the end. Each takes seven steps. It loads and stores at its own word; an
/// answer is read modulo 2^32, a missing word is 0, and further words do not count. Three private steps lead before the
/// load. An array may begin behind a member, and its elements may lie apart.
#[tactic(auto, unfolding(spv_module::specs::Code::cut, spv_words::specs::Words::bytes_of_words, spv_meaning::specs::Statements::statements_in, crate::specs::Setting::setting, crate::specs::Places::locate, crate::specs::Operations::outcome, crate::specs::Steps::look, crate::specs::Steps::first_state, crate::specs::Machine::Trace, spv_meaning::specs::Computations::computed, spv_value::specs::Eval::Eval, spv_value::specs::Eval::op_rules, spv_value::specs::Arith::i_mul, spv_value::specs::Numbers::wrapped))]
pub fn facts_of_doubling()
    ensures doubles { Finals doubling (on (5 ∷ 6 ∷ 7 ∷ [])) (buffer (10 ∷ 12 ∷ 14 ∷ [])) }
    ensures strips { KeepsWords (λ i. not (is_debug i)) doubling stripped }
    ensures means_same { (d : Dispatch) → MeansSame doubling stripped d }
    ensures doubles_stripped { Finals stripped (on (5 ∷ 6 ∷ 7 ∷ [])) (buffer (10 ∷ 12 ∷ 14 ∷ [])) }
    ensures seven_steps { (words : List ℕ) (i : ℕ) (a b : List ℕ) → (Trace doubling (on words) i 7 (a ∷ b ∷ [])).end ≡ Returned }
    ensures not_six { (words : List ℕ) (i : ℕ) (a b : List ℕ) → (Trace doubling (on words) i 6 (a ∷ b ∷ [])).end ≡ Runs }
    ensures trace { (w : ℕ) (more : List ℕ) → Trace doubling (on (5 ∷ 6 ∷ 7 ∷ [])) 1 7 ((w ∷ more) ∷ [] ∷ []) ≡ record { accesses = doubling_load (at_word 1) ∷ doubling_store (at_word 1) (i_mul 32 (w % 2 ^ 32) 2) ∷ []; end = Returned } }
    ensures missing_word { Trace doubling (on (5 ∷ 6 ∷ 7 ∷ [])) 2 7 ([] ∷ [] ∷ []) ≡ record { accesses = doubling_load (at_word 2) ∷ doubling_store (at_word 2) 0 ∷ []; end = Returned } }
    ensures stands { and_then (and_then (and_then (PrivateStep doubling (on (5 ∷ [])) (first_state (setting_of doubling (on (5 ∷ []))) 0)) (PrivateStep doubling (on (5 ∷ [])))) (PrivateStep doubling (on (5 ∷ [])))) (Standing doubling (on (5 ∷ []))) ≡ Some (doubling_load (at_word 0)) }
    ensures stands_not_before { Standing doubling (on (5 ∷ [])) (first_state (setting_of doubling (on (5 ∷ []))) 0) ≡ None }
    ensures behind { Finals doubling_behind (on (5 ∷ 6 ∷ 7 ∷ [])) (buffer (5 ∷ 12 ∷ 14 ∷ [])) }
    ensures apart { Finals doubling_apart (on (5 ∷ 6 ∷ 7 ∷ 8 ∷ [])) (buffer (10 ∷ 6 ∷ 14 ∷ 8 ∷ [])) }
{}

/// What passes that are wrong would make of the doubling shader does not mean the same: a store dropped, a constant
/// changed, two instructions of the body swapped, an Offset or an ArrayStride dropped.
pub fn facts_of_wrong_passes()
    ensures no_store { MeansSame doubling store_dropped (on (5 ∷ 6 ∷ 7 ∷ [])) → ⊥ }
    ensures other_constant { MeansSame doubling constant_changed (on (5 ∷ 6 ∷ 7 ∷ [])) → ⊥ }
    ensures swapped { MeansSame doubling body_swapped (on (5 ∷ 6 ∷ 7 ∷ [])) → ⊥ }
    ensures no_offset { MeansSame doubling_behind offset_dropped (on (5 ∷ 6 ∷ 7 ∷ [])) → ⊥ }
    ensures no_stride { MeansSame doubling_apart stride_dropped (on (5 ∷ 6 ∷ 7 ∷ 8 ∷ [])) → ⊥ }
{}

/// An index past the buffer leads to Nowhere, where a load answers 0 and a store changes nothing. Where a buffer ends
/// inside an element, the element is outside, and so is an index past the array's length. A negative index is outside.
/// A chain that ends at an array has no words and is never past the end; one that ends at an object that passes the end
/// is Nowhere. A whole read or write that passes the end of its memory is one at Nowhere.
#[tactic(auto, unfolding(spv_module::specs::Code::cut, spv_words::specs::Words::bytes_of_words, spv_meaning::specs::Statements::statements_in, crate::specs::Setting::setting, crate::specs::Places::locate, crate::specs::Operations::outcome, crate::specs::Steps::look, crate::specs::Steps::first_state, crate::specs::Machine::Trace, spv_meaning::specs::Computations::computed, spv_value::specs::Eval::Eval, spv_value::specs::Eval::op_rules, spv_value::specs::Arith::i_mul, spv_value::specs::Numbers::wrapped, crate::specs::Effects::after, crate::specs::Effects::answer))]
pub fn facts_of_places()
    ensures past { Trace doubling (on (5 ∷ 6 ∷ 7 ∷ [])) 3 7 ((9 ∷ []) ∷ [] ∷ []) ≡ record { accesses = doubling_load None ∷ doubling_store None 18 ∷ []; end = Returned } }
    ensures reads_zero { (m : Shared) → answer (doubling_load None) m ≡ 0 ∷ [] }
    ensures writes_nothing { (m : Shared) → after (doubling_store None 18) m ≡ m }
    ensures element_cut { Finals squaring (on (5 ∷ 6 ∷ 7 ∷ [])) (buffer (25 ∷ 36 ∷ 7 ∷ [])) }
    ensures element { locate storage_class.STORAGE_BUFFER (Some 6) pairs_type pairs ((1 ∷ []) ∷ (1 ∷ []) ∷ []) ≡ Some (record { memory = Buffer 0 0; first = 3; positions = 3 ∷ 4 ∷ [] }) }
    ensures component { locate storage_class.STORAGE_BUFFER (Some 6) pairs_type pairs ((1 ∷ []) ∷ (1 ∷ []) ∷ (1 ∷ []) ∷ []) ≡ at_word 4 }
    ensures no_element { locate storage_class.STORAGE_BUFFER (Some 6) pairs_type pairs ((1 ∷ []) ∷ (2 ∷ []) ∷ []) ≡ None }
    ensures padding { locate storage_class.STORAGE_BUFFER (Some 6) (RuntimeArray (Some 16) (Vector 2 uint)) (at_words (Buffer 0 0) []) ((1 ∷ []) ∷ []) ≡ None }
    ensures counted_from_first { locate storage_class.STORAGE_BUFFER (Some 4) (Struct (Member (Some 4) false (RuntimeArray (Some 16) uint) NoMember)) (at_words (Buffer 0 0) []) ((0 ∷ []) ∷ (0 ∷ []) ∷ []) ≡ None }
    ensures not_negative { locate storage_class.PRIVATE None (Array (Some 4) 0xFFFF_FFFF uint) (at_words (Private 4) []) ((0x7FFF_FFFF ∷ []) ∷ []) ≡ Some (record { memory = Private 4; first = 0x7FFF_FFFF; positions = 0x7FFF_FFFF ∷ [] }) }
    ensures negative { locate storage_class.PRIVATE None (Array (Some 4) 0xFFFF_FFFF uint) (at_words (Private 4) []) ((0x8000_0000 ∷ []) ∷ []) ≡ None }
    ensures no_member { locate storage_class.STORAGE_BUFFER (Some 6) pairs_type pairs ((2 ∷ []) ∷ []) ≡ None }
    ensures from_nowhere { locate storage_class.STORAGE_BUFFER (Some 6) pairs_type None ((0 ∷ []) ∷ []) ≡ None }
    ensures whole_array { locate storage_class.STORAGE_BUFFER (Some 0) pairs_type pairs ((1 ∷ []) ∷ []) ≡ Some (record { memory = Buffer 0 0; first = 1; positions = [] }) }
    ensures past_member { locate storage_class.STORAGE_BUFFER (Some 0) pairs_type pairs ((0 ∷ []) ∷ []) ≡ None }
    ensures no_index { locate storage_class.STORAGE_BUFFER (Some 0) pairs_type pairs [] ≡ None }
    ensures uniform { read_held reading no_data 1 (at_words (Uniform 1 2) (0 ∷ [])) ≡ 5 ∷ [] }
    ensures uniform_cut { read_held reading no_data 2 (at_words (Uniform 1 2) (0 ∷ 1 ∷ [])) ≡ 0 ∷ 0 ∷ [] }
    ensures other_uniform { read_held reading no_data 1 (at_words (Uniform 1 3) (0 ∷ [])) ≡ 0 ∷ [] }
    ensures push { read_held reading no_data 1 (at_words Push (1 ∷ [])) ≡ 7 ∷ [] }
    ensures push_cut { read_held reading no_data 2 (at_words Push (1 ∷ 2 ∷ [])) ≡ 0 ∷ 0 ∷ [] }
    ensures cut_at_access { (w : ℕ) → after (storing (Buffer 0 0) (0 ∷ 1 ∷ []) (w ∷ w ∷ [])) (holding (5 ∷ [])) ≡ holding (5 ∷ []) }
{}

/// Two invocations in one workgroup double a word each, whatever the schedule. At one word an update may be lost, and
/// nothing else is left than the word doubled or doubled twice.
pub fn facts_of_two_invocations()
    ensures both_end { Ends doubling_by_two (on (5 ∷ 6 ∷ [])) }
    ensures both { (buffers : List Bound) → Finals doubling_by_two (on (5 ∷ 6 ∷ [])) buffers → buffers ≡ buffer (10 ∷ 12 ∷ []) }
    ensures one_word { (buffers : List Bound) → Finals doubling_one_word (on (5 ∷ [])) buffers → (buffers ≡ buffer (10 ∷ [])) ⊎ (buffers ≡ buffer (20 ∷ [])) }
    ensures one_lost { Finals doubling_one_word (on (5 ∷ [])) (buffer (10 ∷ [])) }
    ensures none_lost { Finals doubling_one_word (on (5 ∷ [])) (buffer (20 ∷ [])) }
{}

/// A dispatch has words of 32 bits. It fits where its entry point is there and has a workgroup size, and each array has
/// a length. Of two entry points of one name the first counts. A constant that is the workgroup size comes before a
/// LocalSizeId, and that before a LocalSize. Invocations are counted along x, then y, then z.
#[tactic(auto, unfolding(spv_module::specs::Code::cut, spv_words::specs::Words::bytes_of_words, spv_meaning::specs::Statements::statements_in, crate::specs::Setting::setting, crate::specs::Machine::workgroup_size))]
pub fn facts_of_dispatches()
    ensures in_range { IsDispatch (on (5 ∷ 0xFFFF_FFFF ∷ [])) }
    ensures out_of_range { IsDispatch (on (0x1_0000_0000 ∷ [])) → ⊥ }
    ensures fits { Fits doubling (on []) }
    ensures size { workgroup_size doubling (on []) ≡ Some (record { x = 64; y = 1; z = 1 }) }
    ensures other_name { Fits doubling (record (on []) { entry = codes "other" }) → ⊥ }
    ensures shorter_name { Fits doubling (record (on []) { entry = codes "mai" }) → ⊥ }
    ensures no_size { Fits unsized (on []) → ⊥ }
    ensures first_counts { workgroup_size doubling_twice (on []) ≡ Some (record { x = 64; y = 1; z = 1 }) }
    ensures by_literals { size_for (LocalSize 1 (7 ∷ 8 ∷ 9 ∷ []) ∷ []) [] 1 ≡ Some (record { x = 7; y = 8; z = 9 }) }
    ensures other_function { size_for (LocalSize 1 (7 ∷ 8 ∷ 9 ∷ []) ∷ []) [] 2 ≡ None }
    ensures by_ids { size_for sized_by_modes (table_of sized_by_modes []) 1 ≡ Some (record { x = 1; y = 2; z = 1 }) }
    ensures by_constant { size_for sized_by_constant (table_of sized_by_constant []) 1 ≡ Some (record { x = 2; y = 2; z = 1 }) }
    ensures workgroup { workgroup_id (setting_of doubling (record (on []) { groups = record { x = 2; y = 3; z = 2 } })) 643 ≡ record { x = 0; y = 2; z = 1 } }
    ensures local { local_id (setting_of doubling (record (on []) { groups = record { x = 2; y = 3; z = 2 } })) 643 ≡ record { x = 3; y = 0; z = 0 } }
    ensures global { builtin_words (setting_of doubling (on [])) (record { x = 2; y = 5; z = 0 }) (record { x = 3; y = 0; z = 0 }) builtin.GLOBAL_INVOCATION_ID ≡ 131 ∷ 5 ∷ 0 ∷ [] }
    ensures index { builtin_words (setting_of doubling (on [])) (record { x = 0; y = 0; z = 0 }) (record { x = 3; y = 2; z = 1 }) builtin.LOCAL_INVOCATION_INDEX ≡ 195 ∷ [] }
{}

/// A load changes nothing. Of words stored at one position the last stays. Each workgroup has its own Workgroup
/// variables, which begin as zeros. An atomic answers the old word, and writes what its name says; at Nowhere it
/// answers 0. A barrier waits, and a fence does not.
#[tactic(auto, unfolding(crate::specs::Effects::after, crate::specs::Effects::answer, spv_value::specs::Arith::i_add, spv_value::specs::Arith::i_sub, spv_value::specs::Numbers::wrapped, spv_value::specs::Numbers::signed, spv_value::specs::Ext::u_min, spv_value::specs::Ext::u_max, spv_value::specs::Ext::s_min, spv_value::specs::Ext::s_max, spv_value::specs::Bits::bitwise_and, spv_value::specs::Bits::bitwise_or, spv_value::specs::Bits::bitwise_xor, spv_value::specs::Bits::bits_of, spv_value::specs::Bits::number_of))]
pub fn facts_of_effects()
    ensures load { (m : Shared) → after (loading (Buffer 0 0) 0) m ≡ m }
    ensures loads { answer (loading (Buffer 0 0) 1) (holding (5 ∷ 6 ∷ [])) ≡ 6 ∷ [] }
    ensures store { after (storing (Buffer 0 0) (1 ∷ []) (9 ∷ [])) (holding (5 ∷ 6 ∷ 7 ∷ [])) ≡ holding (5 ∷ 9 ∷ 7 ∷ []) }
    ensures other_binding { after (storing (Buffer 0 1) (0 ∷ []) (9 ∷ [])) (holding (5 ∷ 6 ∷ [])) ≡ holding (5 ∷ 6 ∷ []) }
    ensures first_of_two { after (storing (Buffer 0 0) (0 ∷ []) (9 ∷ [])) (record { buffers = record { set = 0; binding = 0; words = 5 ∷ [] } ∷ buffer (6 ∷ []); cells = [] }) ≡ record { buffers = record { set = 0; binding = 0; words = 9 ∷ [] } ∷ buffer (6 ∷ []); cells = [] } }
    ensures in_order { after (storing (Buffer 0 0) (0 ∷ 0 ∷ []) (8 ∷ 9 ∷ [])) (holding (5 ∷ [])) ≡ holding (9 ∷ []) }
    ensures begins_as_zero { answer (loading (Workgroup (group 0) 4) 2) (holding []) ≡ 0 ∷ [] }
    ensures workgroup { answer (loading (Workgroup (group 0) 4) 2) (after (storing (Workgroup (group 0) 4) (2 ∷ []) (9 ∷ [])) (holding [])) ≡ 9 ∷ [] }
    ensures other_workgroup { answer (loading (Workgroup (group 1) 4) 2) (after (storing (Workgroup (group 0) 4) (2 ∷ []) (9 ∷ [])) (holding [])) ≡ 0 ∷ [] }
    ensures other_variable { answer (loading (Workgroup (group 0) 5) 2) (after (storing (Workgroup (group 0) 4) (2 ∷ []) (9 ∷ [])) (holding [])) ≡ 0 ∷ [] }
    ensures add { after (atomic op.ATOMIC_I_ADD (at_word 0) (3 ∷ [])) (holding (0xFFFF_FFFF ∷ [])) ≡ holding (2 ∷ []) }
    ensures old_word { answer (atomic op.ATOMIC_I_ADD (at_word 0) (3 ∷ [])) (holding (0xFFFF_FFFF ∷ [])) ≡ 0xFFFF_FFFF ∷ [] }
    ensures subtract { after (atomic op.ATOMIC_I_SUB (at_word 0) (3 ∷ [])) (holding (5 ∷ [])) ≡ holding (2 ∷ []) }
    ensures increment { after (atomic op.ATOMIC_I_INCREMENT (at_word 0) []) (holding (0xFFFF_FFFF ∷ [])) ≡ holding (0 ∷ []) }
    ensures decrement { after (atomic op.ATOMIC_I_DECREMENT (at_word 0) []) (holding (0 ∷ [])) ≡ holding (0xFFFF_FFFF ∷ []) }
    ensures signed_min { after (atomic op.ATOMIC_S_MIN (at_word 0) (3 ∷ [])) (holding (0xFFFF_FFFF ∷ [])) ≡ holding (0xFFFF_FFFF ∷ []) }
    ensures unsigned_min { after (atomic op.ATOMIC_U_MIN (at_word 0) (3 ∷ [])) (holding (0xFFFF_FFFF ∷ [])) ≡ holding (3 ∷ []) }
    ensures signed_max { after (atomic op.ATOMIC_S_MAX (at_word 0) (3 ∷ [])) (holding (0xFFFF_FFFF ∷ [])) ≡ holding (3 ∷ []) }
    ensures unsigned_max { after (atomic op.ATOMIC_U_MAX (at_word 0) (3 ∷ [])) (holding (0xFFFF_FFFF ∷ [])) ≡ holding (0xFFFF_FFFF ∷ []) }
    ensures and { after (atomic op.ATOMIC_AND (at_word 0) (5 ∷ [])) (holding (6 ∷ [])) ≡ holding (4 ∷ []) }
    ensures or { after (atomic op.ATOMIC_OR (at_word 0) (5 ∷ [])) (holding (6 ∷ [])) ≡ holding (7 ∷ []) }
    ensures xor { after (atomic op.ATOMIC_XOR (at_word 0) (5 ∷ [])) (holding (6 ∷ [])) ≡ holding (3 ∷ []) }
    ensures exchange { after (atomic op.ATOMIC_EXCHANGE (at_word 0) (5 ∷ [])) (holding (6 ∷ [])) ≡ holding (5 ∷ []) }
    ensures atomic_store { after (atomic op.ATOMIC_STORE (at_word 0) (5 ∷ [])) (holding (6 ∷ [])) ≡ holding (5 ∷ []) }
    ensures stores_silently { answer (atomic op.ATOMIC_STORE (at_word 0) (5 ∷ [])) (holding (6 ∷ [])) ≡ [] }
    ensures atomic_load { after (atomic op.ATOMIC_LOAD (at_word 0) []) (holding (6 ∷ [])) ≡ holding (6 ∷ []) }
    ensures exchanges_equal { after (atomic op.ATOMIC_COMPARE_EXCHANGE (at_word 0) (5 ∷ 6 ∷ [])) (holding (6 ∷ [])) ≡ holding (5 ∷ []) }
    ensures keeps_unequal { after (atomic op.ATOMIC_COMPARE_EXCHANGE (at_word 0) (5 ∷ 7 ∷ [])) (holding (6 ∷ [])) ≡ holding (6 ∷ []) }
    ensures fence { (m : Shared) → after (order Fences op.MEMORY_BARRIER [] []) m ≡ m }
    ensures fence_waits_for_nobody { is_barrier (order Fences op.MEMORY_BARRIER [] []) ≡ false }
    ensures barrier_waits { is_barrier (order Barriers op.CONTROL_BARRIER [] []) ≡ true }
    ensures nowhere { answer (atomic op.ATOMIC_I_ADD None (3 ∷ [])) (holding (6 ∷ [])) ≡ 0 ∷ [] }
    ensures changes_nothing_there { after (atomic op.ATOMIC_I_ADD None (3 ∷ [])) (holding (6 ∷ [])) ≡ holding (6 ∷ []) }
    ensures past { answer (atomic op.ATOMIC_I_ADD (at_word 1) (3 ∷ [])) (holding (6 ∷ [])) ≡ 0 ∷ [] }
{}

/// The OpPhi of a block get their values at once. A branch stands behind them, a call behind the first label of the
/// callee, and a return behind the call, each by one step; labels are none. A variable of a function begins as zeros at
/// each call. Private variables begin with their initialiser, or as zeros. Atomics, fences and barriers are accesses.
/// An instruction without a meaning leaves the invocation stuck.
#[tactic(auto, unfolding(crate::specs::Setting::setting, crate::specs::Places::locate, crate::specs::Operations::outcome, crate::specs::Steps::look, crate::specs::Steps::first_state, spv_meaning::specs::Computations::computed, spv_value::specs::Eval::Eval, spv_value::specs::Eval::op_rules, spv_value::specs::Arith::i_add, spv_value::specs::Numbers::wrapped))]
pub fn facts_of_control()
    ensures swaps { alone_in swapping 7 ([] ∷ []) ≡ record { accesses = doubling_store (at_word 0) 1 ∷ []; end = Returned } }
    ensures swaps_in_seven { (alone_in swapping 6 ([] ∷ [])).end ≡ Runs }
    ensures calls { alone_in calling 17 ([] ∷ [] ∷ []) ≡ record { accesses = doubling_store (at_word 0) 2 ∷ doubling_store (at_word 0) 1 ∷ []; end = Returned } }
    ensures calls_in_seventeen { (alone_in calling 16 ([] ∷ [] ∷ [])).end ≡ Runs }
    ensures begins { (alone_in beginning 8 ([] ∷ [] ∷ [] ∷ [])).accesses ≡ doubling_store (at_word 0) 2 ∷ doubling_store (at_word 0) 0 ∷ doubling_store (at_word 0) 1 ∷ [] }
    ensures orders { alone_in ordering 5 ((7 ∷ []) ∷ [] ∷ [] ∷ [] ∷ []) ≡ record { accesses = record (atomic op.ATOMIC_I_ADD (at_word 0) (1 ∷ [])) { scopes = (1 ∷ []) ∷ []; semantics = (2 ∷ []) ∷ []; id = 10 } ∷ doubling_store (at_word 0) 7 ∷ order Fences op.MEMORY_BARRIER ((1 ∷ []) ∷ []) ((2 ∷ []) ∷ []) ∷ order Barriers op.CONTROL_BARRIER ((2 ∷ []) ∷ (1 ∷ []) ∷ []) ((2 ∷ []) ∷ []) ∷ []; end = Returned } }
    ensures sticks { alone_in unknown 1 [] ≡ ended Stuck }
    ensures no_function { alone_in [] 1 [] ≡ ended Stuck }
{}

/// An access is volatile where its variable or parameter or a member on its chain is decorated so, or its memory
/// operands say so.
#[tactic(auto, unfolding(spv_module::specs::Code::cut, spv_words::specs::Words::bytes_of_words, spv_meaning::specs::Statements::statements_in, crate::specs::Setting::setting, crate::specs::Places::locate, crate::specs::Operations::outcome, crate::specs::Steps::look, crate::specs::Steps::first_state, crate::specs::Machine::Trace))]
pub fn facts_of_volatility()
    ensures plain { volatilities (Trace doubling (on (5 ∷ [])) 0 7 ([] ∷ [] ∷ [])).accesses ≡ false ∷ false ∷ [] }
    ensures variable { volatilities (Trace volatile_variable (on (5 ∷ [])) 0 7 ([] ∷ [] ∷ [])).accesses ≡ true ∷ true ∷ [] }
    ensures member { volatilities (Trace volatile_member (on (5 ∷ [])) 0 7 ([] ∷ [] ∷ [])).accesses ≡ true ∷ true ∷ [] }
    ensures parameter { volatilities (alone_in passing 4 ([] ∷ [] ∷ [])).accesses ≡ true ∷ false ∷ [] }
    ensures operand { volatilities (Trace volatile_load (on (5 ∷ [])) 0 7 ([] ∷ [] ∷ [])).accesses ≡ true ∷ false ∷ [] }
{}
