ghost use Rattle.std.specs.Prelude.{◌≡◌, ◌<◌, ◌≤◌, ◌^◌, ◌||◌, length, Some, slice_get, slice_index, count_by, IfOk};
ghost use Rattle.spv_module.specs.Code.{section_in, sections_of, is_function};
ghost use Rattle.spv_module.specs.View.{seen};

use crate::layout::{is_line, plain_section};
use crate::list::InstList;
use crate::view::View;
use spv_base::{Header, NoMemory};
use spv_opcodes::op;
use std::alloc::Global;
use std::marker::Model;

/// A module: its header and its instructions, each with its section. It has fewer than 2^32 instructions.
#[derive(Debug, Drop)]
pub struct Flat {
    header: Header,
    insts: InstList,
    sections: Vec<u8>,
}

impl Model for Flat {
    ghost use Rattle.std.specs.Prelude.{◌≡◌, ◌<◌, ◌^◌, length};
    ghost use Rattle.spv_module.specs.Code.{Code, sections_of};

    ghost Value = { Code };

    ghost view = { λ flat. record { header = flat.header; insts = flat.insts } };

    ghost invariant = { λ flat. (flat.sections.items ≡ sections_of flat.insts) × (length flat.insts < 2 ^ 32) };
}

/// The section of an instruction behind one of the section `before`.
fn section_of(begun: bool, before: u8, inst: &View) -> u8
    ensures { result ≡ section_in begun before (seen inst.now) }
{
    if is_line(inst) {
        before
    } else {
        plain_section(begun, inst)
    }
}

/// Whether a function has begun behind an instruction.
fn has_begun(begun: bool, inst: &View) -> bool
    ensures { result ≡ (begun || is_function (seen inst.now)) }
{
    begun || inst.opcode() == op::FUNCTION
}

/// The number of OpFunction among instructions.
fn count_functions(insts: &InstList) -> usize
    ensures count { result ≡ count_by is_function insts.now }
    ensures within { result ≤ length insts.now }
{
    let mut functions = 0;
    'instructions: for k in 0..insts.count() {
        if has_begun(false, &insts.at(k)) {
            functions += 1;
        }
    }
    functions
}

/// Puts the section of each instruction into its place.
fn put_sections(sections: &mut Vec<u8>, insts: &InstList)
    requires { length sections.old.items ≡ length insts.now }
    ensures { sections.new.items ≡ sections_of insts.now }
{
    let mut begun = false;
    let mut before = 1;
    'instructions: for k in 0..insts.count() {
        let inst = insts.at(k);
        before = section_of(begun, before, &inst);
        sections[k] = before;
        begun = has_begun(begun, &inst);
    }
}

impl Flat {
    /// The module of these instructions, of which there are fewer than 2^32.
    pub fn new(alloc: Global, header: Header, insts: InstList) -> Result<Flat, NoMemory>
        requires { length insts < 2 ^ 32 }
        ensures { IfOk result (λ flat. flat ≡ record { header = header; insts = insts }) }
    {
        let mut sections = Vec::new(alloc);
        sections.resize(insts.count(), 0)?;
        Ok(Flat::from_parts(header, insts, sections))
    }

    /// The module of these instructions, of which there are fewer than 2^32, in a vector with room for the section of each.
    pub fn from_parts(header: Header, insts: InstList, sections: Vec<u8>) -> Flat
        requires few { length insts < 2 ^ 32 }
        requires room { length sections.items ≡ length insts }
        ensures { result ≡ record { header = header; insts = insts } }
    {
        let mut sections = sections;
        put_sections(&mut sections, &insts);
        Flat {
            header,
            insts,
            sections,
        }
    }

    /// What the module is made of: its header, its instructions, and the vector of their sections.
    pub fn into_parts(self) -> (Header, InstList, Vec<u8>)
        ensures header { result.0 ≡ self.header }
        ensures insts { result.1 ≡ self.insts }
        ensures room { length result.2.items ≡ length self.insts }
    {
        (self.header, self.insts, self.sections)
    }

    /// The header.
    pub fn header(&self) -> Header
        ensures { result ≡ self.now.header }
    {
        self.header
    }

    /// The instructions, in order.
    pub fn insts(&self) -> &InstList
        ensures same { result.now ≡ self.now.insts }
        ensures few { length result.now < 2 ^ 32 }
    {
        &self.insts
    }

    /// The number of instructions.
    pub fn count(&self) -> u32
        ensures { result ≡ length self.now.insts }
    {
        self.insts.count() as u32
    }

    /// The number of functions: of OpFunction among the instructions.
    pub fn functions(&self) -> u32
        ensures { result ≡ count_by is_function self.now.insts }
    {
        count_functions(&self.insts) as u32
    }

    /// The k-th instruction, counted from 0.
    pub fn at(&self, k: u32) -> View<'_>
        requires { k < length self.now.insts }
        ensures { slice_get self.now.insts k ≡ Some (seen result) }
    {
        self.insts.at(k as usize)
    }

    /// The section of the k-th instruction, counted from 0, by the names of `section`.
    pub fn section(&self, k: u32) -> u8
        requires { k < length self.now.insts }
        ensures { result ≡ slice_index (sections_of self.now.insts) k }
    {
        self.sections[k as usize]
    }
}
