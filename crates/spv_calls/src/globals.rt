ghost use Rattle.std.specs.Prelude.{◌≡◌};
ghost use Rattle.std.specs.List.{position_or_len};
ghost use Rattle.spv_module.specs.Code.{is_function as function_begins};
ghost use Rattle.spv_module.specs.View.{seen};

use spv_module::{InstList, View};
use spv_opcodes::op;
use spv_typing::Kinds;
use std::marker::Model;

/// Which ids are global variables.
#[derive(Debug, Drop)]
pub struct Globals<'a> {
    kinds: &'a Kinds<'a>,
    /// How many instructions stand before the first function.
    outside: usize,
}

impl<'a> Model for Globals<'a> {
    ghost use Rattle.std.specs.Prelude.{◌≡◌, List};
    ghost use Rattle.std.specs.List.{position_or_len};
    ghost use Rattle.spv_module.specs.Code.{is_function};
    ghost use Rattle.spv_module.specs.Instruction.{Instruction};

    ghost Value = { List Instruction };

    ghost view = { λ globals. globals.kinds.now };

    ghost invariant = { λ globals. globals.outside ≡ position_or_len is_function globals.kinds.now };
}

/// Whether the instruction begins a function.
pub fn is_function(inst: &View) -> bool
    ensures { result ≡ function_begins (seen inst.now) }
{
    inst.opcode() == op::FUNCTION
}

/// How many instructions stand before the first function.
fn count_outside(insts: &InstList) -> usize
    ensures { result ≡ position_or_len function_begins insts.now }
{
    'instructions: for k in 0..insts.count() {
        if is_function(&insts.at(k)) {
            return k;
        }
    }
    insts.count()
}

impl<'a> Globals<'a> {
    ghost use Rattle.std.specs.Prelude.{◌<◌, length, slice_get, Some};
    ghost use Rattle.spv_ids.specs.Ids.{kind, place_of};
    ghost use Rattle.spv_typing.specs.Kinds.{is_outside as stands_outside};
    ghost use Rattle.spv_calls.specs.Calls.{is_global, callee as callee_in};

    /// The global variables of a module.
    pub fn of(kinds: &'a Kinds<'a>) -> Globals<'a>
        ensures { result ≡ kinds.now }
    {
        Globals {
            kinds,
            outside: count_outside(kinds.definitions().insts()),
        }
    }

    /// What all ids stand for.
    pub fn kinds(&self) -> &'a Kinds<'a>
        ensures { result.now ≡ self.now }
    {
        self.kinds
    }

    /// The module's instructions.
    pub fn insts(&self) -> &'a InstList
        ensures { result.now ≡ self.now }
    {
        self.kinds.definitions().insts()
    }

    /// Whether the id is defined before the first function.
    fn is_outside(&self, id: u32) -> bool
        ensures { result ≡ stands_outside self.now id }
    {
        match self.kinds.definitions().place(id) {
            Some(place) => (place as usize) < self.outside,
            None => false,
        }
    }

    /// Whether the id is a global variable.
    pub fn has(&self, id: u32) -> bool
        ensures { result ≡ is_global self.now id }
    {
        self.kinds.definitions().kind(id) == op::VARIABLE && self.is_outside(id)
    }

    /// The place of the first instruction that defines an id.
    pub fn place(&self, id: u32) -> Option<usize>
        ensures { result ≡ place_of self.now id }
    {
        match self.kinds.definitions().place(id) {
            Some(place) => Some(place as usize),
            None => None,
        }
    }

    /// The place of the function that an instruction calls. None where it calls none.
    pub fn callee(&self, inst: &View) -> Option<usize>
        ensures { result ≡ callee_in self.now (seen inst.now) }
    {
        if inst.opcode() != op::FUNCTION_CALL {
            return None;
        }
        let function = spv_ids::word(inst, 3);
        if self.kinds.definitions().kind(function) != op::FUNCTION {
            return None;
        }
        self.place(function)
    }
}
