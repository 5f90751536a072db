ghost use Rattle.spv_module.specs.Instruction.{IsInstruction};

use crate::view::View;
use spv_base::{Id, NoMemory, Words};
use spv_grammar::kind::Role;
use spv_grammar::operands::push_roles;
use std::alloc::Global;

/// An instruction with words of its own.
#[derive(Debug, Drop)]
pub struct Inst {
    /// The place of its first word in the module that it was read from, in words; 0 where it was read from
    /// none.
    pub offset: u32,
    words: Words,
    roles: Vec<Role>,
    ghost whole: { IsInstruction words roles.items },
}

impl Inst {
    ghost use Rattle.std.specs.Prelude.{◌≡◌, ◌<◌, ◌^◌, [], length, slice_get, slice_index, Some, IfOk};
    ghost use Rattle.std.specs.Option.{is_some, option_map};
    ghost use Rattle.spv_grammar.specs.Operands.{count_of};
    ghost use Rattle.spv_grammar.specs.Fronts.{has_result, has_result_type};
    ghost use Rattle.spv_grammar.specs.Roles.{is_defined_id, is_type_id, is_used_id};
    ghost use Rattle.spv_module.specs.Instruction.{opcode as opcode_in, word_with, operands as operands_in, operand_roles, instruction_rules};
    ghost use Rattle.spv_module.specs.View.{seen};
    ghost use Rattle.spv_module.specs.Inst.{held};

    /// The instruction of these words, at offset 0. They are to be one instruction of the profile.
    pub fn new(alloc: Global, words: &[u32]) -> Result<Inst, NoMemory>
        requires some { 0 < length words.now }
        requires counted { count_of (slice_index words.now 0) ≡ length words.now }
        requires unbroken { instruction_rules (2 ^ 32) words.now ≡ [] }
        ensures { IfOk result (λ inst. held inst ≡ record { offset = 0; words = words.now }) }
    {
        let mut roles = Vec::new(alloc);
        let None = push_roles(alloc, words, &mut roles)? else {
            unreachable!();
        };
        let mut copy = Words::new(alloc);
        copy.extend(words)?;
        Ok(Inst {
            offset: 0,
            words: copy,
            roles,
        })
    }

    /// The instruction as a list lends it.
    pub fn view(&self) -> View<'_>
        ensures { seen result ≡ held self.now }
    {
        View::new(self.offset, self.words.as_slice(), &self.roles)
    }

    /// The opcode.
    pub fn opcode(&self) -> u16
        ensures { result ≡ opcode_in (held self.now) }
    {
        self.view().opcode()
    }

    /// The id that the instruction defines. None exactly where its opcode defines none.
    pub fn result(&self) -> Option<Id>
        ensures word { result ≡ word_with is_defined_id (held self.now) }
        ensures has { is_some result ≡ has_result (opcode_in (held self.now)) }
    {
        self.view().result()
    }

    /// The id of the result's type. None exactly where the opcode has no result type.
    pub fn result_type(&self) -> Option<Id>
        ensures word { result ≡ word_with is_type_id (held self.now) }
        ensures has { is_some result ≡ has_result_type (opcode_in (held self.now)) }
    {
        self.view().result_type()
    }

    /// The number of operand words.
    pub fn operands(&self) -> u32
        ensures { result ≡ length (operands_in (held self.now)) }
    {
        self.view().operands()
    }

    /// The k-th operand word, counted from 0.
    pub fn operand(&self, k: u32) -> u32
        requires { k < length (operands_in (held self.now)) }
        ensures { result ≡ slice_index (operands_in (held self.now)) k }
    {
        self.view().operand(k)
    }

    /// Whether the k-th operand word, counted from 0, names an id.
    pub fn is_id(&self, k: u32) -> bool
        requires { k < length (operands_in (held self.now)) }
        ensures { Some result ≡ option_map is_used_id (slice_get (operand_roles (held self.now)) k) }
    {
        self.view().is_id(k)
    }
}
