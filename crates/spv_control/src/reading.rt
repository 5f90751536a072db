ghost use Rattle.std.specs.Prelude.{◌≡◌, ℕ, ◌+◌, List, [], IfOk, OnOk, count_by};
ghost use Rattle.spv_module.specs.Code.{is_function};
ghost use Rattle.spv_module.specs.Instruction.{Instruction};
ghost use Rattle.spv_blocks.specs.Cutting.{blocks_of, function_insts};
ghost use Rattle.spv_parse.specs.Parsed.{tree_of};
ghost use Rattle.spv_functions.specs.Functions.{Answers, AreFunctions, AreShapes, IsDeclared, Refuses, is_pointer};
ghost use Rattle.spv_control.specs.Control.{Reads, trees_of};
ghost use Rattle.spv_control.specs.Reading.{HasShapesBelow, IsReadBelow};

use spv_base::{Fault, NoMemory, Refusal};
use spv_faults::earlier;
use spv_flow::Shape;
use spv_functions::Functions;
use spv_module::Flat;
use spv_parse::Parsed;
use spv_tree::Body;
use sqlite_items::Items;
use std::alloc::Global;

/// What the functions of a module are read as, in order.
#[derive(Drop)]
pub struct Read {
    /// The tree of each.
    pub bodies: Items<Body>,
    /// The blocks of each, with their tables.
    pub shapes: Vec<Shape>,
}

/// What is told of the functions that were read.
#[derive(Drop)]
struct Reading {
    /// The first rule that one of them breaks.
    refusal: Option<Refusal>,
    /// Whether one of them nests too deep.
    nests: bool,
    /// The trees of the others.
    bodies: Items<Body>,
    /// Their blocks, with their tables.
    shapes: Vec<Shape>,
}

impl Reading {
    /// Before any function is read.
    fn new(alloc: Global) -> Reading
        ensures trees { (insts : List Instruction) → IsReadBelow insts 0 result.refusal result.nests result.bodies }
        ensures shapes { result.shapes.items ≡ [] }
    {
        Reading {
            refusal: None,
            nests: false,
            bodies: Items::new(alloc),
            shapes: Vec::new(alloc),
        }
    }

    /// Adds the fault that is told of the next function.
    fn add_fault(&mut self, fault: Fault) -> Result<(), NoMemory>
        ensures trees { OnOk result ((insts : List Instruction) (n : ℕ) → IsReadBelow insts n self.old.refusal self.old.nests self.old.bodies → Refuses (is_pointer insts) (function_insts n insts) fault → IsReadBelow insts (n + 1) self.new.refusal self.new.nests self.new.bodies) }
        ensures shapes { OnOk result ((insts : List Instruction) (n : ℕ) → HasShapesBelow insts n self.new.refusal self.new.nests self.new.shapes.items) }
    {
        match fault {
            Fault::Refused(refusal) => self.refusal = earlier(self.refusal, Some(refusal)),
            Fault::Nesting => self.nests = true,
            Fault::NoMemory => return Err(NoMemory),
        }
        Ok(())
    }

    /// Adds what is told of the next function.
    fn add(&mut self, function: Result<Parsed, Fault>) -> Result<(), NoMemory>
        ensures trees { OnOk result ((insts : List Instruction) (n : ℕ) → IsReadBelow insts n self.old.refusal self.old.nests self.old.bodies → Answers (is_pointer insts) (function_insts n insts) (tree_of function) → IsReadBelow insts (n + 1) self.new.refusal self.new.nests self.new.bodies) }
        ensures shapes { OnOk result ((insts : List Instruction) (n : ℕ) → HasShapesBelow insts n self.old.refusal self.old.nests self.old.shapes.items → IfOk function (λ parsed. parsed.shape ≡ blocks_of (function_insts n insts)) → HasShapesBelow insts (n + 1) self.new.refusal self.new.nests self.new.shapes.items) }
    {
        match function {
            Ok(parsed) => {
                self.bodies.push(parsed.body)?;
                self.shapes.push(parsed.shape)?;
            }
            Err(fault) => self.add_fault(fault)?,
        }
        Ok(())
    }

    /// The answer, where these are all functions of a module.
    fn answer(self) -> Result<Read, Fault>
        ensures trees { (insts : List Instruction) → IsReadBelow insts (count_by is_function insts) self.refusal self.nests self.bodies → Reads insts (trees_of result) }
        ensures shapes { (insts : List Instruction) → HasShapesBelow insts (count_by is_function insts) self.refusal self.nests self.shapes.items → IfOk result (λ read. AreShapes insts read.shapes.items) }
    {
        match self.refusal {
            Some(refusal) => Err(Fault::Refused(refusal)),
            None if self.nests => Err(Fault::Nesting),
            None => Ok(Read {
                bodies: self.bodies,
                shapes: self.shapes,
            }),
        }
    }
}

/// What is told of all functions of a module.
fn read_all(alloc: Global, flat: &Flat, functions: &Functions) -> Result<Reading, NoMemory>
    requires own { AreFunctions flat.now.insts functions.now }
    requires declared { IsDeclared flat.now.insts }
    ensures trees { IfOk result (λ reading. IsReadBelow flat.now.insts (count_by is_function flat.now.insts) reading.refusal reading.nests reading.bodies) }
    ensures shapes { IfOk result (λ reading. HasShapesBelow flat.now.insts (count_by is_function flat.now.insts) reading.refusal reading.nests reading.shapes.items) }
{
    let mut reading = Reading::new(alloc);
    'functions: for f in 0..flat.functions() {
        reading.add(functions.read(alloc, flat, f))?;
    }
    Ok(reading)
}

/// The trees of all functions of a module, in order, and their blocks with their tables. It is refused exactly by the first rule on structured control flow that
/// one of them breaks, also one behind a function that nests too deep; where none is broken, it nests too deep exactly where
/// one of them does.
///
/// The module is to break no rule on layout and on declarations.
pub fn parse_all(alloc: Global, flat: &Flat, functions: &Functions) -> Result<Read, Fault>
    requires own { AreFunctions flat.now.insts functions.now }
    requires declared { IsDeclared flat.now.insts }
    ensures trees { Reads flat.now.insts (trees_of result) }
    ensures shapes { IfOk result (λ read. AreShapes flat.now.insts read.shapes.items) }
{
    read_all(alloc, flat, functions)?.answer()
}
