ghost use Rattle.std.specs.Prelude.{◌≡◌, IfOk, Some, slice_get};
ghost use Rattle.spv_module.specs.View.{seen};

use crate::bindings::clashing;
use crate::mode::{entry_function, is_mode};
use crate::names::renamed;
use crate::naming::Naming;
use crate::rule;
use spv_decorations::Decorations;
use spv_ids::word;
use spv_module::{NoMemory, View};
use spv_opcodes::op;
use spv_typing::Kinds;
use std::alloc::Global;
use std::marker::Model;

/// What the rules on bindings and entry points ask of a module.
#[derive(Debug, Drop)]
pub struct Entries<'a> {
    kinds: &'a Kinds<'a>,
    /// For each instruction, whether it breaks the rule on bindings.
    clashing: Vec<bool>,
    /// For each instruction, whether it is an entry point with the name of one before it.
    renamed: Vec<bool>,
    naming: Naming,
}

impl<'a> Model for Entries<'a> {
    ghost use Rattle.std.specs.Prelude.{List};
    ghost use Rattle.spv_module.specs.Instruction.{Instruction};
    ghost use Rattle.spv_entries.specs.Kept.{AreKept};

    ghost Value = { List Instruction };

    ghost view = { λ entries. entries.kinds.now };

    ghost invariant = { λ entries. AreKept entries.kinds.now entries.clashing.items entries.renamed.items entries.naming };
}

impl<'a> Entries<'a> {
    ghost use Rattle.std.specs.Prelude.{take};
    ghost use Rattle.spv_module.specs.First.{least};
    ghost use Rattle.spv_entries.specs.Bindings as bindings;
    ghost use Rattle.spv_entries.specs.Names as names;
    ghost use Rattle.spv_entries.specs.Sizes as sizes;
    ghost use Rattle.spv_entries.specs.Functions as functions;
    ghost use Rattle.spv_entries.specs.Broken.{entry_rules};

    /// What the rules ask of a module. It takes time in proportion to the module's words, and for each entry point,
    /// variable, mode and call the logarithm of their number more.
    pub fn of(
        alloc: Global,
        kinds: &'a Kinds<'a>,
        decorations: &Decorations,
    ) -> Result<Entries<'a>, NoMemory>
        requires same { decorations.now ≡ kinds.now }
        ensures { IfOk result (λ entries. entries ≡ kinds.now) }
    {
        let insts = kinds.definitions().insts();
        Ok(Entries {
            kinds,
            clashing: clashing(alloc, insts, decorations)?,
            renamed: renamed(alloc, insts)?,
            naming: Naming::of(alloc, insts, kinds)?,
        })
    }

    /// 603: whether the k-th instruction, counted from 0, is no Uniform or StorageBuffer variable outside functions, or
    /// has a set and a binding, at which no variable before it is of the other class.
    pub fn binding_fits(&self, k: usize, inst: &View) -> bool
        requires { slice_get self.now k ≡ Some (seen inst.now) }
        ensures { result ≡ bindings.binding_fits self.now (take k self.now) (seen inst.now) }
    {
        !self.clashing[k]
    }

    /// 604: whether the k-th instruction, counted from 0, is no entry point, or has a name that none before it has.
    pub fn name_fits(&self, k: usize, inst: &View) -> bool
        requires { slice_get self.now k ≡ Some (seen inst.now) }
        ensures { result ≡ names.name_fits (take k self.now) (seen inst.now) }
    {
        !self.renamed[k]
    }

    /// 605: whether an entry point has its workgroup size, and whether a mode names the function of one. Every other
    /// instruction passes.
    #[tactic(auto, unfolding(crate::specs::Sizes::size_fits))]
    pub fn size_fits(&self, inst: &View) -> bool
        ensures { result ≡ sizes.size_fits self.now (seen inst.now) }
    {
        match entry_function(inst) {
            Some(function) => self.naming.is_sized(function),
            None => !is_mode(inst) || self.naming.is_entered(word(inst, 1)),
        }
    }

    /// Whether an id is a function without parameters and result that is not called.
    fn may_be_entered(&self, function: u32) -> bool
        ensures { result ≡ functions.may_be_entered self.now function }
    {
        let definitions = self.kinds.definitions();
        definitions.kind(function) == op::FUNCTION
            && self.kinds.is_void(definitions.word(function, 1))
            && definitions
                .words(definitions.word(function, 4), 3)
                .is_empty()
            && !self.naming.is_called(function)
    }

    /// 606: whether an entry point's function has neither parameters nor a result, and is not called. Every other
    /// instruction passes.
    #[tactic(auto, unfolding(crate::specs::Functions::function_fits))]
    pub fn function_fits(&self, inst: &View) -> bool
        ensures { result ≡ functions.function_fits self.now (seen inst.now) }
    {
        match entry_function(inst) {
            Some(function) => self.may_be_entered(function),
            None => true,
        }
    }

    /// The least of these rules that the k-th instruction, counted from 0, breaks.
    pub fn broken_rule(&self, k: usize, inst: &View) -> Option<u16>
        requires { slice_get self.now k ≡ Some (seen inst.now) }
        ensures { result ≡ least (entry_rules self.now k (seen inst.now)) }
    {
        if !self.binding_fits(k, inst) {
            Some(rule::BINDING)
        } else if !self.name_fits(k, inst) {
            Some(rule::ENTRY_NAME)
        } else if !self.size_fits(inst) {
            Some(rule::LOCAL_SIZE)
        } else if !self.function_fits(inst) {
            Some(rule::ENTRY_FUNCTION)
        } else {
            None
        }
    }
}
