ghost use Rattle.std.specs.Prelude.{◌≡◌, IfOk};
ghost use Rattle.std.specs.BTreeSet.{contains};
ghost use Rattle.std.specs.Ordering.{nat_cmp};
ghost use Rattle.spv_blocks.specs.Cutting.{blocks_of, function_at};
ghost use Rattle.spv_blocks.specs.Tables.{found};
ghost use Rattle.spv_walk.specs.Numbering.{HasOwnLabels};
ghost use Rattle.spv_walk.specs.Walked.{InPlaces, IsWalk};
ghost use Rattle.spv_walking.specs.Table.{context_of};
ghost use Rattle.spv_normal.specs.Lines.{without_marks};
ghost use Rattle.spv_spelling.specs.Whole.{IsAdmitted, IsText};
ghost use Rattle.spv_flow.specs.Shapes.{IsShaped};
ghost use Rattle.spv_parse.specs.Functions.{IsSpelled, Parses};
ghost use Rattle.spv_parse.specs.Parsed.{first_of, tree_of};

use crate::building::build;
use crate::lengths::each_is_short;
use spv_base::{Fault, NoMemory};
use spv_blocks::{Function, Insts, Labels};
use spv_flow::{Flow, Shape};
use spv_module::Flat;
use spv_sources::Source;
use spv_tree::Body;
use spv_walking::Walked;
use std::alloc::Global;
use std::collections::BTreeSet;

/// The constructs that may lie round one point of a function.
const DEPTH: usize = 255;

/// What a function is read as: its tree, and its blocks with their tables.
#[derive(Drop)]
pub struct Parsed {
    pub body: Body,
    pub shape: Shape,
}

/// The tree of the function whose OpFunction is the instruction numbered `first` of a module, counted from 0, and its
/// blocks with their tables. `pointers` are the types that are pointers. It is refused exactly by the first broken rule on
/// structured control flow; where none is broken, it nests too deep exactly where more than 255 constructs lie round one
/// point.
///
/// The function is to have the shape that the layout of its module gives it, and labels of its own.
pub fn parse_function(
    alloc: Global,
    flat: &Flat,
    pointers: &BTreeSet<u32>,
    first: u32,
) -> Result<Parsed, Fault>
    requires text { IsText (without_marks (function_at first flat.now.insts)) }
    requires own { HasOwnLabels (blocks_of (function_at first flat.now.insts)) }
    ensures tree { Parses (contains nat_cmp pointers.now) (function_at first flat.now.insts) (tree_of result) }
    ensures shape { IfOk result (λ parsed. parsed.shape ≡ blocks_of (function_at first flat.now.insts)) }
{
    let function = Function::at(alloc, flat, first)?;
    let (body, flow) = parse_blocks(alloc, flat, pointers, first, &function)?;
    Ok(Parsed {
        body,
        shape: Shape::new(function, flow),
    })
}

/// The tree of a function with these blocks, and its tables.
fn parse_blocks(
    alloc: Global,
    flat: &Flat,
    pointers: &BTreeSet<u32>,
    first: u32,
    function: &Function,
) -> Result<(Body, Flow), Fault>
    requires text { IsText (without_marks (function_at first flat.now.insts)) }
    requires own { HasOwnLabels (blocks_of (function_at first flat.now.insts)) }
    requires blocks { function.now ≡ blocks_of (function_at first flat.now.insts) }
    ensures tree { Parses (contains nat_cmp pointers.now) (function_at first flat.now.insts) (first_of result) }
    ensures shaped { IfOk result (λ parsed. IsShaped function.now (found parsed.1.enterers) (context_of parsed.1.walked)) }
{
    flat.insts().each_is_instruction();
    each_is_short(&Insts::from(flat, first));
    let labels = Labels::of(alloc, function)?;
    match Flow::of(alloc, pointers, function, &labels)? {
        Err(refusal) => Err(Fault::Refused(refusal)),
        Ok(flow) => {
            if flow.depth(&labels, function) > DEPTH {
                return Err(Fault::Nesting);
            }
            let body = parse_unbroken(alloc, flat, first, &labels, flow.walked())?;
            Ok((body, flow))
        }
    }
}

/// The tree of a function in which no rule is broken.
fn parse_unbroken(
    alloc: Global,
    flat: &Flat,
    first: u32,
    labels: &Labels<'_>,
    walked: &Walked,
) -> Result<Body, NoMemory>
    requires admitted { IsAdmitted (without_marks (function_at first flat.now.insts)) }
    requires same { labels.now ≡ blocks_of (without_marks (function_at first flat.now.insts)) }
    requires walk { IsWalk labels.now (InPlaces (context_of walked.now)) }
    ensures { IfOk result (λ body. IsSpelled (function_at first flat.now.insts) body) }
{
    let insts = Insts::from(flat, first);
    let source = Source::of(alloc, &insts, labels)?;
    build(alloc, &source, labels, walked)
}
