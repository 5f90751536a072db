use spv_availability::rule::NOT_AVAILABLE;
use spv_availability::{Places, are_available};
use spv_base::{NoMemory, Refusal};
use spv_blocks::{Labels, starts};
use spv_faults::earlier;
use spv_flow::Shape;
use spv_ids::Definitions;
use spv_module::layout::is_line;
use spv_module::{Flat, View};
use spv_scopes::Scopes;
use std::alloc::Global;
use std::marker::Model;

/// What availability asks of a whole module. It borrows the module.
#[derive(Drop)]
pub(crate) struct Bodies<'a> {
    flat: &'a Flat,
    places: Places<'a>,
    definitions: Definitions<'a>,
    /// The number of each OpFunction among the instructions.
    starts: Vec<u32>,
}

impl<'a> Model for Bodies<'a> {
    ghost use Rattle.std.specs.Prelude.{List};
    ghost use Rattle.spv_module.specs.Instruction.{Instruction};
    ghost use Rattle.spv_check.specs.Parts.{AreBodies};

    ghost Value = { List Instruction };

    ghost view = { λ bodies. bodies.flat.now.insts };

    ghost invariant = { λ bodies. AreBodies bodies.flat.now.insts bodies.places bodies.definitions bodies.starts.items };
}

impl<'a> Bodies<'a> {
    ghost use Rattle.std.specs.Prelude.{◌≡◌, ◌==◌, ◌<◌, ◌+◌, Some, count_by, length, slice_get, IfOk};
    ghost use Rattle.passing.specs.Chains.{Tells};
    ghost use Rattle.spv_module.specs.Code.{is_function};
    ghost use Rattle.spv_module.specs.View.{seen};
    ghost use Rattle.spv_types.specs.Whole.{Rises};
    ghost use Rattle.spv_blocks.specs.Cutting.{blocks_of, function_insts, starts as starts_in};
    ghost use Rattle.spv_walk.specs.Rules.{IsFirst};
    ghost use Rattle.spv_scopes.specs.Scopes.{AreScopes};
    ghost use Rattle.spv_availability.specs.Availability.{code_of};
    ghost use Rattle.spv_availability.specs.Places.{function_of};
    ghost use Rattle.spv_functions.specs.Functions.{AreShapes, IsDeclared};
    ghost use Rattle.spv_check.specs.Parts.{BeginsAt, Every, Lacks, Missing, Only};

    /// What availability asks of a module. It takes time in proportion to the module, up to logarithms.
    pub(crate) fn of(alloc: Global, flat: &'a Flat) -> Result<Bodies<'a>, NoMemory>
        ensures { IfOk result (λ bodies. bodies ≡ flat.now.insts) }
    {
        Ok(Bodies {
            flat,
            places: Places::of(alloc, flat)?,
            definitions: Definitions::of(alloc, flat)?,
            starts: starts(alloc, flat)?,
        })
    }

    /// The module.
    pub(crate) fn flat(&self) -> &'a Flat
        ensures { result.now.insts ≡ self.now }
    {
        self.flat
    }

    /// Whether the k-th instruction stands in the function with this number, counted from 1.
    pub(crate) fn is_in(&self, number: u32, k: u32) -> bool
        requires { k < length self.now }
        ensures { result ≡ (function_of self.now k == number) }
    {
        self.places.function(k) == number
    }

    /// Whether the k-th instruction, which stands in the function of the labels, uses what is not available there. A line mark
    /// does not.
    fn lacks(&self, scopes: &Scopes, labels: &Labels, k: u32, inst: &View) -> bool
        requires within { k < length self.now }
        requires inside { 0 < function_of self.now k }
        requires here { slice_get self.now k ≡ Some (seen inst.now) }
        requires labels { labels.now ≡ code_of self.now (function_of self.now k) }
        requires scopes { AreScopes labels.now scopes.now }
        ensures { Tells result (Lacks self.now k (seen inst.now)) }
    {
        if is_line(inst) {
            return false;
        }
        !are_available(&self.places, &self.definitions, scopes, labels, k, inst)
    }

    /// The first instruction that uses what is not available there, of the function of the labels, which has this number,
    /// counted from 1, and begins with the instruction numbered `first`.
    fn first_lacking(
        &self,
        scopes: &Scopes,
        labels: &Labels,
        number: u32,
        first: u32,
    ) -> Option<Refusal>
        requires rises { Rises self.now }
        requires some { 0 < number }
        requires begins { BeginsAt self.now number first }
        requires labels { labels.now ≡ code_of self.now number }
        requires scopes { AreScopes labels.now scopes.now }
        ensures { IsFirst (Missing self.now (Only number)) result }
    {
        let flat = self.flat();
        'instructions: for k in first..flat.count() {
            if !self.is_in(number, k) {
                return None;
            }
            let inst = flat.at(k);
            if self.lacks(scopes, labels, k, &inst) {
                return Some(Refusal {
                    rule: NOT_AVAILABLE,
                    at: inst.offset,
                });
            }
        }
        None
    }

    /// The number of the instruction that begins the function numbered `f`, counted from 0.
    fn start(&self, f: u32) -> u32
        requires { f < count_by is_function self.now }
        ensures { slice_get (starts_in self.now) f ≡ Some result }
    {
        self.starts[f as usize]
    }

    /// The first instruction of the function numbered `f`, counted from 0, that uses what is not available there. The shape is
    /// that of the function.
    pub(crate) fn missing_in(
        &self,
        alloc: Global,
        f: u32,
        shape: &Shape,
    ) -> Result<Option<Refusal>, NoMemory>
        requires rises { Rises self.now }
        requires declared { IsDeclared self.now }
        requires within { f < count_by is_function self.now }
        requires shape { shape.now ≡ blocks_of (function_insts f self.now) }
        ensures { IfOk result (λ found. IsFirst (Missing self.now (Only (f + 1))) found) }
    {
        let flat = self.flat();
        flat.insts().each_is_instruction();
        let first = self.start(f);
        let flow = shape.flow();
        let labels = Labels::of(alloc, shape.function())?;
        let scopes = Scopes::of(alloc, &labels, flow.walked())?;
        Ok(self.first_lacking(&scopes, &labels, f + 1, first))
    }

    /// The first instruction of the module that uses what is not available there. Each function has its own labels and
    /// scopes, which are made once for all its instructions. The shapes are those of the functions.
    pub(crate) fn missing(
        &self,
        alloc: Global,
        shapes: &[Shape],
    ) -> Result<Option<Refusal>, NoMemory>
        requires rises { Rises self.now }
        requires declared { IsDeclared self.now }
        requires shapes { AreShapes self.now shapes.now }
        ensures { IfOk result (λ found. IsFirst (Missing self.now Every) found) }
    {
        let flat = self.flat();
        let mut found = None;
        'functions: for f in 0..flat.functions() {
            let missing = self.missing_in(alloc, f, &shapes[f as usize])?;
            found = earlier(found, missing);
        }
        Ok(found)
    }
}
