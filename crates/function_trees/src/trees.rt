ghost use Rattle.std.specs.Prelude.{◌≡◌, ◌<◌, IfOk, count_by};
ghost use Rattle.spv_module.specs.Code.{is_function};
ghost use Rattle.spv_functions.specs.Functions.{AreFunctions, IsDeclared};

use spv_base::{Fault, NoMemory};
use spv_functions::Functions;
use spv_module::{Flat, InstList};
use spv_tree::flatten;
use std::alloc::Global;
use std::fmt;

/// What was measured of a module.
#[derive(Clone, Copy, Debug)]
pub(crate) struct Counts {
    /// The number of functions.
    pub(crate) functions: u32,
    /// The greatest depth of a tree, in constructs.
    pub(crate) depth: u32,
    /// The number of words of all instructions that spell the trees, up to 2^64 - 1.
    pub(crate) words: u64,
}

impl fmt::Display for Counts {
    fn fmt<W: fmt::Write>(&self, f: &mut fmt::Formatter<W>) -> fmt::Result {
        write!(
            f,
            "{} functions, depth {}, {} words",
            self.functions, self.depth, self.words
        )
    }
}

/// The number of words of instructions, up to 2^64 - 1.
fn words_in(insts: &InstList) -> u64 {
    let mut words = 0u64;
    'instructions: for k in 0..insts.count() {
        words = words.saturating_add(insts.at(k).words.len() as u64);
    }
    words
}

/// The depth of the tree of a function, and the number of words of the instructions that spell it.
fn measure_function(
    alloc: Global,
    flat: &Flat,
    functions: &Functions,
    f: u32,
) -> Result<(u32, u64), Fault>
    requires own { AreFunctions flat.now.insts functions.now }
    requires declared { IsDeclared flat.now.insts }
    requires within { f < count_by is_function flat.now.insts }
{
    let body = functions.parse(alloc, flat, f)?;
    let insts = flatten(alloc, &body)?;
    Ok((body.depth(), words_in(&insts)))
}

/// Makes the tree of each function of a module, and the instructions that spell it. Refused as by `parse`, at the first
/// function that is.
pub(crate) fn measure(alloc: Global, flat: &Flat) -> Result<Counts, Fault>
    requires { IsDeclared flat.now.insts }
    ensures { IfOk result (λ counts. counts.functions ≡ count_by is_function flat.now.insts) }
{
    let functions = Functions::of(alloc, flat)?;
    let mut depth = 0u32;
    let mut words = 0u64;
    'functions: for f in 0..flat.functions() {
        let (deep, long) = measure_function(alloc, flat, &functions, f)?;
        depth = depth.max(deep);
        words = words.saturating_add(long);
    }
    Ok(Counts {
        functions: flat.functions(),
        depth,
        words,
    })
}
