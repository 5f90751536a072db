ghost use Rattle.std.specs.Prelude.{◌≡◌, ℕ, ◌<◌, ◌^◌, List, length};
ghost use Rattle.spv_words.specs.Words.{HasHeader};
ghost use Rattle.spv_module.specs.Code.{code_of};
ghost use Rattle.spv_types.specs.Whole.{Rises};
ghost use Rattle.spv_functions.specs.Functions.{IsDeclared};
ghost use Rattle.spv_admission.specs.Admission.{Admits};
ghost use Rattle.spv_profile.specs.Profile.{IsDeclaredModule};

use spv_base::Fault;
use spv_check::check;
use spv_control::parse_all;
use spv_functions::Functions;
use spv_module::{Flat, decode};
use spv_module_rules::check_whole;
use spv_norm::norm;
use spv_types::{Tables, tables};
use std::alloc::Global;

/// The normal form of a module that breaks no rule on its words, its layout and its declarations; or the first rule that it
/// breaks of the others, or that a function nests too deep.
fn admit_declared<'a>(alloc: Global, tables: &'a Tables<'a>, flat: &Flat) -> Result<Flat, Fault>
    requires same { tables.now ≡ flat.now.insts }
    requires rises { Rises flat.now.insts }
    requires declared { IsDeclared flat.now.insts }
    ensures { (words : List ℕ) → flat.now ≡ code_of words → IsDeclaredModule words → Admits words result }
{
    flat.insts().each_is_instruction();
    let functions = Functions::of(alloc, flat)?;
    let read = parse_all(alloc, flat, &functions)?;
    check(alloc, tables, flat, &read.shapes)?;
    check_whole(alloc, tables, flat, &read.shapes)?;
    let norm = norm(alloc, flat, read.bodies.as_slice())?;
    Ok(norm)
}

/// The normal form of the module that words spell: at least five and fewer than 2^32 words, with the magic number first. It
/// means what the module means.
///
/// Refuses by the first broken rule of the lowest group that has one: the rules on the header and on instructions (101 to
/// 109), on the layout (201 to 205), on declarations (301 to 309), on structured control flow (401 to 408, 410), on the
/// instructions of functions (501 to 507), and on the whole module (601 to 607). Where no rule up to control flow is broken,
/// it nests too deep exactly where a function nests deeper than 255.
pub fn admit(alloc: Global, words: &[u32]) -> Result<Flat, Fault>
    requires header { HasHeader words.now }
    requires small { length words.now < 2 ^ 32 }
    ensures { Admits words.now result }
{
    let flat = decode(alloc, words)?;
    let tables = tables(alloc, &flat)?;
    admit_declared(alloc, &tables, &flat)
}
