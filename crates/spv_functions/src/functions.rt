use crate::kinds::pointers;
use spv_base::{Fault, NoMemory};
use spv_blocks::starts;
use spv_module::Flat;
use spv_parse::{Parsed, parse_function};
use spv_tree::Body;
use std::alloc::Global;
use std::collections::BTreeSet;
use std::marker::Model;

/// What is asked of a whole module to read its functions, found once for all of them: which types are pointers, and where
/// each function begins.
#[derive(Drop)]
pub struct Functions {
    /// The types that are pointers.
    pointers: BTreeSet<u32>,
    /// The number of each OpFunction among the instructions.
    starts: Vec<u32>,
}

impl Model for Functions {
    ghost use Rattle.spv_functions.specs.Functions.{Table};

    ghost Value = { Table };

    ghost view = { λ functions. record { pointers = functions.pointers; starts = functions.starts.items } };
}

impl Functions {
    ghost use Rattle.std.specs.Prelude.{◌≡◌, ◌<◌, IfOk, count_by};
    ghost use Rattle.spv_module.specs.Code.{is_function};
    ghost use Rattle.spv_blocks.specs.Cutting.{blocks_of, function_insts};
    ghost use Rattle.spv_parse.specs.Parsed.{tree_of};
    ghost use Rattle.spv_functions.specs.Functions.{Answers, AreFunctions, IsDeclared, is_pointer};

    /// The functions of a module.
    pub fn of(alloc: Global, flat: &Flat) -> Result<Functions, NoMemory>
        ensures { IfOk result (AreFunctions flat.now.insts) }
    {
        Ok(Functions {
            pointers: pointers(alloc, flat)?,
            starts: starts(alloc, flat)?,
        })
    }

    /// What the function numbered `f` of the module that these are the functions of is read as, counted from 0: its tree, and
    /// its blocks with their tables. It is refused exactly by the first broken rule on structured control flow; where none is
    /// broken, it nests too deep exactly where more than 255 constructs lie round one point.
    ///
    /// The module is to break no rule on layout and on declarations.
    pub fn read(&self, alloc: Global, flat: &Flat, f: u32) -> Result<Parsed, Fault>
        requires own { AreFunctions flat.now.insts self.now }
        requires declared { IsDeclared flat.now.insts }
        requires within { f < count_by is_function flat.now.insts }
        ensures tree { Answers (is_pointer flat.now.insts) (function_insts f flat.now.insts) (tree_of result) }
        ensures shape { IfOk result (λ parsed. parsed.shape ≡ blocks_of (function_insts f flat.now.insts)) }
    {
        flat.insts().each_is_instruction();
        parse_function(alloc, flat, &self.pointers, self.starts[f as usize])
    }

    /// The tree alone of what `read` answers.
    pub fn parse(&self, alloc: Global, flat: &Flat, f: u32) -> Result<Body, Fault>
        requires own { AreFunctions flat.now.insts self.now }
        requires declared { IsDeclared flat.now.insts }
        requires within { f < count_by is_function flat.now.insts }
        ensures { Answers (is_pointer flat.now.insts) (function_insts f flat.now.insts) result }
    {
        Ok(self.read(alloc, flat, f)?.body)
    }
}
