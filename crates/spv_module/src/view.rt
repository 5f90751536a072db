ghost use Rattle.spv_module.specs.Instruction.{IsInstruction};

use spv_base::Id;
use spv_grammar::kind::Role;
use spv_grammar::operands::{count_of, opcode_of};

/// An instruction that a list lends: its words, and the part that each plays.
#[derive(Clone, Copy, Debug)]
pub struct View<'a> {
    /// The place of its first word in the module, in words.
    pub offset: u32,
    pub words: &'a [u32],
    roles: &'a [Role],
    ghost whole: { IsInstruction words.now roles.now },
}

impl<'a> View<'a> {
    ghost use Rattle.std.specs.Prelude.{◌≡◌, ◌<◌, ◌≤◌, length, position, slice_get, slice_index, Some};
    ghost use Rattle.std.specs.Option.{is_some, option_map};
    ghost use Rattle.spv_grammar.specs.Fronts.{has_result, has_result_type};
    ghost use Rattle.spv_grammar.specs.Roles.{is_defined_id, is_type_id, is_used_id};
    ghost use Rattle.spv_module.specs.Instruction.{opcode as opcode_in, word_with, front as front_of, operands as operands_in, operand_roles};
    ghost use Rattle.spv_module.specs.View.{seen};

    /// The instruction in these words, with the part that each plays.
    pub fn new(offset: u32, words: &'a [u32], roles: &'a [Role]) -> View<'a>
        requires { IsInstruction words.now roles.now }
        ensures offset { result.offset ≡ offset }
        ensures words { result.words.now ≡ words.now }
        ensures roles { result.roles.now ≡ roles.now }
    {
        View {
            offset,
            words,
            roles,
        }
    }

    /// The part that each word plays.
    pub fn roles(&self) -> &'a [Role]
        ensures { result.now ≡ self.now.roles.now }
    {
        self.roles
    }

    /// The opcode.
    pub fn opcode(&self) -> u16
        ensures { result ≡ opcode_in (seen self.now) }
    {
        opcode_of(self.words[0])
    }

    /// The id that the instruction defines. None exactly where its opcode defines none.
    pub fn result(&self) -> Option<Id>
        ensures word { result ≡ word_with is_defined_id (seen self.now) }
        ensures has { is_some result ≡ has_result (opcode_in (seen self.now)) }
    {
        let place = self.place_of_result()?;
        Id::new(self.words[place])
    }

    /// The id of the result's type. None exactly where the opcode has no result type.
    pub fn result_type(&self) -> Option<Id>
        ensures word { result ≡ word_with is_type_id (seen self.now) }
        ensures has { is_some result ≡ has_result_type (opcode_in (seen self.now)) }
    {
        let place = self.place_of_type()?;
        Id::new(self.words[place])
    }

    fn place_of_result(&self) -> Option<usize>
        ensures { result ≡ position is_defined_id self.now.roles.now }
    {
        self.roles.iter().position(|role| role.is_defined_id())
    }

    fn place_of_type(&self) -> Option<usize>
        ensures { result ≡ position is_type_id self.now.roles.now }
    {
        self.roles.iter().position(|role| role.is_type_id())
    }

    /// How many words stand in front of the operands: the first one, the result's type and the result.
    fn front(&self) -> usize
        ensures count { result ≡ front_of (seen self.now) }
        ensures within { result ≤ length self.now.words.now }
    {
        self.roles.iter().take_while(|role| role.is_front()).count()
    }

    /// The number of operand words.
    pub fn operands(&self) -> u32
        ensures { result ≡ length (operands_in (seen self.now)) }
    {
        u32::from(count_of(self.words[0])) - self.front() as u32
    }

    /// The k-th operand word, counted from 0.
    pub fn operand(&self, k: u32) -> u32
        requires { k < length (operands_in (seen self.now)) }
        ensures { result ≡ slice_index (operands_in (seen self.now)) k }
    {
        self.words[self.front() + k as usize]
    }

    /// Whether the k-th operand word, counted from 0, names an id.
    pub fn is_id(&self, k: u32) -> bool
        requires { k < length (operands_in (seen self.now)) }
        ensures { Some result ≡ option_map is_used_id (slice_get (operand_roles (seen self.now)) k) }
    {
        self.roles[self.front() + k as usize].is_used_id()
    }
}
