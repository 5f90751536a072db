// Facts of memories: what each storage class is, what built-ins hold, how long arrays are, and what invocations share.

ghost use Rattle.std.specs.Prelude.{◌≡◌, ℕ, ◌-◌, ◌/◌, ◌%◌, ◌^◌, List, [], ◌∷◌, ◌⊎◌, length, Option, Some, None};
ghost use Rattle.spv_opcodes.specs.declared.builtin.TheConstants as builtin;
ghost use Rattle.spv_opcodes.specs.declared.storage_class.TheConstants as storage_class;
ghost use Rattle.spv_machine.specs.Places.{Buffer, Workgroup, array_length};
ghost use Rattle.spv_machine.specs.Dispatch.{Bound};
ghost use Rattle.spv_machine.specs.Setting.{setting, builtin_words};
ghost use Rattle.spv_machine.specs.Machine.{trace_in, EndsIn, FinalsIn, Finals};
ghost use Rattle.spv_machine.specs.Doubling.{doubling_by_two, on, buffer};
ghost use Rattle.spv_machine.specs.Facts.{at_word, doubling_load, doubling_store, group, pairs_type, pairs};
ghost use Rattle.spv_machine.specs.Shaders.{triple, groups_on, handed, ordered, exchanging, stepping, counting, finding, meeting, stored_under, through, put_through, put_in_function, in_a_buffer, in_a_block, pushed, telling, measuring};

/// A chain into a variable of each storage class: by strides and offsets into buffers, uniform blocks and push
/// constants, and packed into the others. A variable of a function or an invocation begins as zeros and keeps what is
/// stored. A buffer that is not there has no words.
#[tactic(auto, unfolding(crate::specs::Setting::setting, crate::specs::Places::locate, crate::specs::Operations::outcome, crate::specs::Steps::look, crate::specs::Steps::first_state))]
pub fn facts_of_classes()
    ensures buffer { (trace_in (setting (through storage_class.STORAGE_BUFFER []) in_a_buffer) 0 4 ((5 ∷ []) ∷ [] ∷ [])).accesses ≡ record (doubling_load (Some (record { memory = Buffer 2 3; first = 8; positions = 8 ∷ [] }))) { id = 11 } ∷ doubling_store (at_word 0) 5 ∷ [] }
    ensures no_buffer { (trace_in (setting (through storage_class.STORAGE_BUFFER []) (on (0 ∷ []))) 0 4 ((5 ∷ []) ∷ [] ∷ [])).accesses ≡ record (doubling_load None) { id = 11 } ∷ doubling_store (at_word 0) 5 ∷ [] }
    ensures workgroup { (trace_in (setting (through storage_class.WORKGROUP []) (on (0 ∷ []))) 0 4 ((5 ∷ []) ∷ [] ∷ [])).accesses ≡ record (doubling_load (Some (record { memory = Workgroup (group 0) 6; first = 2; positions = 2 ∷ [] }))) { id = 11 } ∷ doubling_store (at_word 0) 5 ∷ [] }
    ensures uniform { handed (trace_in (setting (through storage_class.UNIFORM []) in_a_block) 0 4 ([] ∷ [])).accesses ≡ (9 ∷ []) ∷ [] }
    ensures no_block { handed (trace_in (setting (through storage_class.UNIFORM []) pushed) 0 4 ([] ∷ [])).accesses ≡ (0 ∷ []) ∷ [] }
    ensures push { handed (trace_in (setting (through storage_class.PUSH_CONSTANT []) pushed) 0 4 ([] ∷ [])).accesses ≡ (9 ∷ []) ∷ [] }
    ensures private_zero { stored_under [] (through storage_class.PRIVATE []) ≡ (0 ∷ []) ∷ [] }
    ensures private_kept { stored_under [] (put_through storage_class.PRIVATE) ≡ (2 ∷ []) ∷ [] }
    ensures function_kept { stored_under [] put_in_function ≡ (2 ∷ []) ∷ [] }
{}

/// What invocation 125 loads from each built-in, where 2, 3 and 2 workgroups have 4, 2 and 2 invocations: it is the
/// second along each dimension of its workgroup, which is the second along x and z. Sums wrap.
#[tactic(auto, unfolding(crate::specs::Setting::setting, crate::specs::Places::locate, crate::specs::Operations::outcome, crate::specs::Steps::look, crate::specs::Steps::first_state))]
pub fn facts_of_builtins()
    ensures number_of_workgroups { handed (trace_in (setting (telling builtin.NUM_WORKGROUPS 21) (groups_on (triple 2 3 2) [])) 125 3 ([] ∷ [])).accesses ≡ (2 ∷ 3 ∷ 2 ∷ []) ∷ [] }
    ensures workgroup { handed (trace_in (setting (telling builtin.WORKGROUP_ID 21) (groups_on (triple 2 3 2) [])) 125 3 ([] ∷ [])).accesses ≡ (1 ∷ 0 ∷ 1 ∷ []) ∷ [] }
    ensures local { handed (trace_in (setting (telling builtin.LOCAL_INVOCATION_ID 21) (groups_on (triple 2 3 2) [])) 125 3 ([] ∷ [])).accesses ≡ (1 ∷ 1 ∷ 1 ∷ []) ∷ [] }
    ensures global { handed (trace_in (setting (telling builtin.GLOBAL_INVOCATION_ID 21) (groups_on (triple 2 3 2) [])) 125 3 ([] ∷ [])).accesses ≡ (5 ∷ 1 ∷ 3 ∷ []) ∷ [] }
    ensures index { handed (trace_in (setting (telling builtin.LOCAL_INVOCATION_INDEX 20) (groups_on (triple 2 3 2) [])) 125 3 ([] ∷ [])).accesses ≡ (13 ∷ []) ∷ [] }
    ensures size { builtin_words (setting (telling builtin.GLOBAL_INVOCATION_ID 21) (on [])) (triple 0 0 0) (triple 0 0 0) builtin.WORKGROUP_SIZE ≡ 4 ∷ 2 ∷ 2 ∷ [] }
    ensures wraps { builtin_words (setting (telling builtin.GLOBAL_INVOCATION_ID 21) (on [])) (triple 0x4000_0000 0 0) (triple 3 0 0) builtin.GLOBAL_INVOCATION_ID ≡ 3 ∷ 0 ∷ 0 ∷ [] }
{}

/// A runtime array is as long as the buffer behind the member's offset has strides, rounded down and modulo 2^32,
/// whatever the buffer holds; where the buffer ends before it, and at Nowhere, its length is 0.
#[tactic(auto, unfolding(crate::specs::Setting::setting, crate::specs::Places::locate, crate::specs::Places::array_length, crate::specs::Operations::outcome, crate::specs::Steps::look, crate::specs::Steps::first_state))]
pub fn facts_of_lengths()
    ensures even { array_length storage_class.STORAGE_BUFFER (Some 5) pairs_type pairs 1 ≡ 2 }
    ensures rounds_down { array_length storage_class.STORAGE_BUFFER (Some 6) pairs_type pairs 1 ≡ 2 }
    ensures ends_before { array_length storage_class.STORAGE_BUFFER (Some 0) pairs_type pairs 1 ≡ 0 }
    ensures nowhere { array_length storage_class.STORAGE_BUFFER (Some 6) pairs_type None 1 ≡ 0 }
    ensures no_array { array_length storage_class.STORAGE_BUFFER (Some 6) pairs_type pairs 0 ≡ 0 }
    ensures any_buffer { (words : List ℕ) → handed (trace_in (setting measuring (on words)) 0 4 ([] ∷ [])).accesses ≡ ((length words - 1) / 2 % 2 ^ 32 ∷ []) ∷ [] }
{}

/// A compare and exchange writes its value where the old word is the comparator, and has the semantics of both. What an
/// atomic answers is its result; an increment and a load have no value, and a store has no result.
#[tactic(auto, unfolding(crate::specs::Setting::setting, crate::specs::Places::locate, crate::specs::Operations::outcome, crate::specs::Steps::look, crate::specs::Steps::first_state))]
pub fn facts_of_atomics()
    ensures exchanges { FinalsIn (setting exchanging (on (0 ∷ 0 ∷ 2 ∷ []))) (buffer (2 ∷ 0 ∷ 1 ∷ [])) }
    ensures keeps { FinalsIn (setting exchanging (on (0 ∷ 0 ∷ 3 ∷ []))) (buffer (3 ∷ 0 ∷ 3 ∷ [])) }
    ensures hands_over { handed (trace_in (setting exchanging (on (0 ∷ 0 ∷ 2 ∷ []))) 0 7 ((5 ∷ []) ∷ [] ∷ [])).accesses ≡ (1 ∷ 2 ∷ []) ∷ (5 ∷ []) ∷ [] }
    ensures semantics { ordered (trace_in (setting exchanging (on (0 ∷ 0 ∷ 2 ∷ []))) 0 7 ((5 ∷ []) ∷ [] ∷ [])).accesses ≡ ((0 ∷ []) ∷ (2 ∷ []) ∷ []) ∷ [] ∷ [] }
    ensures steps { handed (trace_in (setting stepping (on (0 ∷ []))) 0 9 ((5 ∷ []) ∷ [] ∷ (6 ∷ []) ∷ [] ∷ [] ∷ [])).accesses ≡ [] ∷ (2 ∷ []) ∷ [] ∷ (5 ∷ []) ∷ (6 ∷ []) ∷ [] }
    ensures orders { ordered (trace_in (setting stepping (on (0 ∷ []))) 0 9 ((5 ∷ []) ∷ [] ∷ (6 ∷ []) ∷ [] ∷ [] ∷ [])).accesses ≡ ((2 ∷ []) ∷ []) ∷ ((0 ∷ []) ∷ []) ∷ ((0 ∷ []) ∷ []) ∷ [] ∷ [] ∷ [] }
{}

/// Two invocations that add to one word leave both additions there, and each finds what the other left or not, as the
/// schedule is. Each workgroup finds zeros in a variable of its own, while two invocations of one workgroup share it.
/// Behind a barrier each finds what both did before. A store past a short buffer does nothing.
pub fn facts_of_sharing()
    ensures counts_end { EndsIn (setting counting (on (0 ∷ 0 ∷ 5 ∷ []))) }
    ensures counts { (buffers : List Bound) → FinalsIn (setting counting (on (0 ∷ 0 ∷ 5 ∷ []))) buffers → (buffers ≡ buffer (5 ∷ 6 ∷ 7 ∷ [])) ⊎ (buffers ≡ buffer (6 ∷ 5 ∷ 7 ∷ [])) }
    ensures one_first { FinalsIn (setting counting (on (0 ∷ 0 ∷ 5 ∷ []))) (buffer (5 ∷ 6 ∷ 7 ∷ [])) }
    ensures other_first { FinalsIn (setting counting (on (0 ∷ 0 ∷ 5 ∷ []))) (buffer (6 ∷ 5 ∷ 7 ∷ [])) }
    ensures two_groups { (buffers : List Bound) → FinalsIn (setting (finding 1) (groups_on (triple 2 1 1) (9 ∷ 9 ∷ []))) buffers → buffers ≡ buffer (0 ∷ 0 ∷ []) }
    ensures one_group { FinalsIn (setting (finding 2) (on (9 ∷ 9 ∷ []))) (buffer (0 ∷ 2 ∷ [])) }
    ensures meets { (buffers : List Bound) → FinalsIn (setting meeting (on (9 ∷ 9 ∷ []))) buffers → buffers ≡ buffer (2 ∷ 2 ∷ []) }
    ensures meets_end { EndsIn (setting meeting (on (9 ∷ 9 ∷ []))) }
    ensures short { (buffers : List Bound) → Finals doubling_by_two (on (5 ∷ [])) buffers → buffers ≡ buffer (10 ∷ []) }
{}
