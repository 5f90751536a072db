ghost use Rattle.std.specs.Prelude.{◌≡◌, ◌<◌, IfOk, count_by};
ghost use Rattle.spv_module.specs.Code.{is_function};
ghost use Rattle.spv_blocks.specs.Cutting.{function_insts};
ghost use Rattle.spv_functions.specs.Functions.{AreFunctions, IsTree, is_pointer};
ghost use Rattle.spv_base.specs.declared.fault.Fault.TheVariants as faults;

use crate::holding::Module;
use spv_base::{Fault, NoMemory};
use spv_functions::Functions;
use spv_tree::Body;
use spv_types::{Tables, tables};
use std::alloc::Global;

/// A module is never refused, so memory was wanting.
fn wanting(fault: Fault) -> NoMemory
    requires { fault ≡ faults.NoMemory }
{
    NoMemory
}

impl Module {
    /// The types, constants and global variables of the module.
    pub fn tables(&self, alloc: Global) -> Result<Tables<'_>, NoMemory>
        ensures { IfOk result (λ tables. tables ≡ self.now.insts) }
    {
        match tables(alloc, self.flat()) {
            Ok(tables) => Ok(tables),
            Err(fault) => Err(wanting(fault)),
        }
    }

    /// The functions of the module, from which their trees are read.
    pub fn functions(&self, alloc: Global) -> Result<Functions, NoMemory>
        ensures { IfOk result (AreFunctions self.now.insts) }
    {
        Functions::of(alloc, self.flat())
    }

    /// The tree of the function numbered `f`, counted from 0, by the functions of the module.
    pub fn body(&self, alloc: Global, functions: &Functions, f: u32) -> Result<Body, NoMemory>
        requires own { AreFunctions self.now.insts functions.now }
        requires within { f < count_by is_function self.now.insts }
        ensures { IfOk result (λ body. IsTree (is_pointer self.now.insts) (function_insts f self.now.insts) body) }
    {
        match functions.parse(alloc, self.flat(), f) {
            Ok(body) => Ok(body),
            Err(fault) => Err(wanting(fault)),
        }
    }
}
