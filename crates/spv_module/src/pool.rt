ghost use Rattle.std.specs.Prelude.{◌≡◌, ◌<◌, ◌^◌, [], length, slice_index, OnOk};
ghost use Rattle.spv_grammar.specs.Operands.{count_of, roles_of};
ghost use Rattle.spv_module.specs.Instruction.{instruction_rules, parts};

use crate::view::View;
use spv_base::NoMemory;
use spv_grammar::kind::Role;
use spv_grammar::operands::push_roles;
use std::alloc::Global;

/// Words, and the part that each plays in its instruction.
#[derive(Debug, Drop)]
pub struct Pool {
    words: Vec<u32>,
    roles: Vec<Role>,
    /// Room for the parts of an instruction that is read.
    reading: Vec<Role>,
    ghost parted: { length roles.items ≡ length words.items },
}

/// Puts the part that each word plays in the place of what `roles` has. The words are to be one instruction of the profile.
fn read_roles(alloc: Global, words: &[u32], roles: &mut Vec<Role>) -> Result<(), NoMemory>
    requires some { 0 < length words.now }
    requires counted { count_of (slice_index words.now 0) ≡ length words.now }
    requires unbroken { instruction_rules (2 ^ 32) words.now ≡ [] }
    ensures parts { OnOk result (roles.new.items ≡ parts (roles_of words.now)) }
    ensures long { OnOk result (length roles.new.items ≡ length words.now) }
{
    roles.clear();
    let None = push_roles(alloc, words, roles)? else {
        unreachable!();
    };
    Ok(())
}

impl Pool {
    ghost use Rattle.std.specs.Prelude.{◌≤◌, ◌++◌, slice_range, slice_set, OnErr};
    ghost use Rattle.spv_module.specs.Instruction.{IsInstruction};

    pub fn new(alloc: Global) -> Pool
        ensures words { result.words.items ≡ [] }
        ensures roles { result.roles.items ≡ [] }
    {
        Pool {
            words: Vec::new(alloc),
            roles: Vec::new(alloc),
            reading: Vec::new(alloc),
        }
    }

    /// The number of words.
    pub fn count(&self) -> usize
        ensures { result ≡ length self.now.words.items }
    {
        self.words.len()
    }

    /// Adds the words of an instruction. Where memory is wanting all stays as it was.
    pub fn append(&mut self, inst: View) -> Result<(), NoMemory>
        ensures words { OnOk result (self.new.words.items ≡ self.old.words.items ++ inst.entry.words.now) }
        ensures roles { OnOk result (self.new.roles.items ≡ self.old.roles.items ++ inst.entry.roles.now) }
        ensures err_words { OnErr result (self.new.words.items ≡ self.old.words.items) }
        ensures err_roles { OnErr result (self.new.roles.items ≡ self.old.roles.items) }
    {
        self.words.reserve(inst.words.len())?;
        self.roles.extend_from_slice(inst.roles())?;
        self.words.extend_from_slice(inst.words).unwrap();
        Ok(())
    }

    /// Adds the words of an instruction, which are to be one of the profile. Where memory is wanting all stays as it was.
    pub fn append_words(&mut self, alloc: Global, words: &[u32]) -> Result<(), NoMemory>
        requires some { 0 < length words.now }
        requires counted { count_of (slice_index words.now 0) ≡ length words.now }
        requires unbroken { instruction_rules (2 ^ 32) words.now ≡ [] }
        ensures words { OnOk result (self.new.words.items ≡ self.old.words.items ++ words.now) }
        ensures roles { OnOk result (self.new.roles.items ≡ self.old.roles.items ++ parts (roles_of words.now)) }
        ensures err_words { OnErr result (self.new.words.items ≡ self.old.words.items) }
        ensures err_roles { OnErr result (self.new.roles.items ≡ self.old.roles.items) }
    {
        read_roles(alloc, words, &mut self.reading)?;
        self.words.reserve(words.len())?;
        self.roles.extend_from_slice(&self.reading)?;
        self.words.extend_from_slice(words).unwrap();
        Ok(())
    }

    /// The instruction in the words from `start` up to `end`.
    pub fn view(&self, offset: u32, start: usize, end: usize) -> View<'_>
        requires ordered { start ≤ end }
        requires within { end ≤ length self.now.words.items }
        requires whole { IsInstruction (slice_range self.now.words.items start end) (slice_range self.now.roles.items start end) }
        ensures offset { result.offset ≡ offset }
        ensures words { result.words.now ≡ slice_range self.now.words.items start end }
    {
        View::new(offset, &self.words[start..end], &self.roles[start..end])
    }

    /// Puts a word in the place of one, counted from 0.
    pub fn put(&mut self, at: usize, word: u32)
        requires { at < length self.old.words.items }
        ensures words { self.new.words.items ≡ slice_set self.old.words.items at word }
        ensures roles { self.new.roles.items ≡ self.old.roles.items }
    {
        self.words[at] = word;
    }
}
