ghost use Rattle.std.specs.Prelude.{◌≡◌, ◌<◌, ℕ, length};
ghost use Rattle.std.specs.Option.{option_map};
ghost use Rattle.spv_blocks.specs.Seen.{seen_construct, seen_end};
ghost use Rattle.spv_walk.specs.Contexts.{behind};
ghost use Rattle.spv_faults.specs.Ends.{TellsExit};
ghost use Rattle.spv_walking.specs.Places.{context_at};

use crate::known::Known;
use spv_base::{NoMemory, Refusal};
use spv_blocks::{Block, Construct, End};
use spv_faults::{earlier, end_fault, front_fault, loop_fault, open_fault, parents_of};
use spv_walking::Rows;
use std::alloc::Global;

/// Whether a target of a conditional branch at a place is an exit, or the block opens a construct; of no other terminator.
fn has_exit(rows: &Rows, place: usize, construct: Option<Construct>, end: &End) -> bool
    requires { place < length rows.now }
    ensures { (l : ℕ) → TellsExit result (option_map seen_construct construct) (behind (option_map seen_construct construct) l l (context_at rows.now place)) (seen_end end.now) }
{
    match end {
        End::BranchIf(one, other) => {
            construct.is_some()
                || rows.is_exit(place, end, *one)
                || rows.is_exit(place, end, *other)
        }
        End::Branch(_) | End::Switch(..) | End::Return | End::Unreachable | End::Open => false,
    }
}

impl<'k, 'f> Known<'k, 'f> {
    ghost use Rattle.std.specs.Prelude.{◌≡◌, ◌<◌, length, slice_get, Some, IfOk};
    ghost use Rattle.std.specs.Option.{option_map};
    ghost use Rattle.spv_module.specs.First.{first};
    ghost use Rattle.spv_blocks.specs.Blocks.{Block as BlockOf, block as block_in};
    ghost use Rattle.spv_blocks.specs.Seen.{seen_block};
    ghost use Rattle.spv_walk.specs.Contexts.{Context};
    ghost use Rattle.spv_walk.specs.Found.{FoundAt, behind_faults};
    ghost use Rattle.spv_walk.specs.Rules.{at_end, Broken, IsFirst};
    ghost use Rattle.spv_walk.specs.Walked.{InPlaces};
    ghost use Rattle.spv_walking.specs.Places.{context_at};
    ghost use Rattle.spv_faults.specs.Listed.{of_context, walked_faults};
    ghost use Rattle.spv_flow.specs.Known.{code_of, enterer_of, ends_of, pointer_of, place_of, faults_of, AreTables};

    /// The first rule that a block at a place breaks by its terminator.
    fn end_fault(
        &self,
        alloc: Global,
        label: u32,
        block: &Block,
        place: usize,
    ) -> Result<Option<Refusal>, NoMemory>
        requires here { block_in (code_of self.now) label ≡ Some (seen_block block.now) }
        requires within { place < length self.now.walked.rows }
        ensures { IfOk result (λ fault. fault ≡ first (at_end (code_of self.now) label (context_at self.now.walked.rows place) (seen_block block.now))) }
    {
        let construct = block.construct();
        let rows = self.walked.rows();
        let exits = has_exit(rows, place, construct, &block.end);
        let in_next = rows.in_next(place);
        end_fault(alloc, construct, exits, in_next, &block.end, block.end_at)
    }

    /// The first rule that a block at a place breaks behind its merge instruction: by its terminator, at its targets, and
    /// as the header of a loop.
    fn behind_fault(
        &self,
        alloc: Global,
        label: u32,
        block: &Block,
        place: usize,
    ) -> Result<Option<Refusal>, NoMemory>
        requires tables { AreTables self.now }
        requires here { block_in (code_of self.now) label ≡ Some (seen_block block.now) }
        requires within { place < length self.now.walked.rows }
        ensures { IfOk result (λ fault. fault ≡ first (behind_faults (code_of self.now) (enterer_of self.now) (ends_of self.now) label (context_at self.now.walked.rows place) (seen_block block.now))) }
    {
        let end = self.end_fault(alloc, label, block, place)?;
        let target = self
            .walked
            .target_fault(alloc, self.labels, &self.enterers, label, block, place)?;
        let header = loop_fault(self.loops.has_one(label), block);
        Ok(earlier(end, earlier(target, header)))
    }

    /// The first rule that the k-th block breaks, which stands at a place. Behind a header that is its own continue target
    /// nothing is looked at.
    fn block_fault(
        &self,
        alloc: Global,
        k: usize,
        block: &Block,
        place: usize,
    ) -> Result<Option<Refusal>, NoMemory>
        requires tables { AreTables self.now }
        requires here { slice_get (code_of self.now) k ≡ Some (seen_block block.now) }
        requires within { place < length self.now.walked.rows }
        ensures { IfOk result (λ fault. fault ≡ first (faults_of self.now block.now.label (context_at self.now.walked.rows place) (seen_block block.now))) }
    {
        let label = block.label;
        let parents = parents_of(alloc, self.function, &self.edges, k)?;
        let front = front_fault(alloc, self.labels, &parents, self.pointers, label, block)?;
        if self.labels.stops(label) {
            return Ok(front);
        }
        let behind = self.behind_fault(alloc, label, block, place)?;
        Ok(earlier(front, behind))
    }

    /// The first rule that the k-th block breaks, if it is walked.
    fn fault_of(&self, alloc: Global, k: usize) -> Result<Option<Refusal>, NoMemory>
        requires tables { AreTables self.now }
        requires within { k < length (code_of self.now) }
        ensures { IfOk result (λ fault. (b : BlockOf) → slice_get (code_of self.now) k ≡ Some b → fault ≡ first (of_context (λ (c : Context). faults_of self.now b.label c b) (place_of self.now b.label))) }
    {
        let block = self.function.block(k);
        match self.walked.place(block.label) {
            Some(place) => self.block_fault(alloc, k, block, place),
            None => Ok(None),
        }
    }

    /// The first rule that walked blocks break.
    fn walked_fault(&self, alloc: Global) -> Result<Option<Refusal>, NoMemory>
        requires { AreTables self.now }
        ensures { IfOk result (λ fault. fault ≡ first (walked_faults (faults_of self.now) (place_of self.now) (code_of self.now))) }
    {
        let mut found = None;
        'each: for k in 0..self.function.count() {
            let fault = self.fault_of(alloc, k)?;
            found = earlier(found, fault);
        }
        Ok(found)
    }

    /// The first rule that walked blocks break, or blocks without a terminator.
    fn found_fault(&self, alloc: Global) -> Result<Option<Refusal>, NoMemory>
        requires { AreTables self.now }
        ensures { IfOk result (λ fault. IsFirst (FoundAt (pointer_of self.now) (code_of self.now) (enterer_of self.now) (ends_of self.now) (InPlaces (place_of self.now))) fault) }
    {
        let walked = self.walked_fault(alloc)?;
        Ok(earlier(walked, open_fault(self.function)))
    }

    /// The first broken rule: what is found, and where nothing is found, a block that is never entered.
    pub(crate) fn fault(&self, alloc: Global) -> Result<Option<Refusal>, NoMemory>
        requires { AreTables self.now }
        ensures { IfOk result (λ fault. IsFirst (Broken (pointer_of self.now) (code_of self.now)) fault) }
    {
        match self.found_fault(alloc)? {
            Some(refusal) => Ok(Some(refusal)),
            None => Ok(self.walked.missing(self.labels, self.function)),
        }
    }
}
