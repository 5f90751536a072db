ghost use Rattle.std.specs.Prelude.{◌≡◌, ℕ, ◌==◌};
ghost use Rattle.std.specs.List.{list_any};
ghost use Rattle.spv_blocks.specs.Blocks.{branches as branches_in, end_targets, has};
ghost use Rattle.spv_blocks.specs.Seen.{seen_end};

use crate::rows::Level;
use crate::walked::Walked;
use spv_blocks::{End, Labels};

/// Whether a pair has the label as its second.
fn has_case(cases: &[(u32, u32)], target: u32) -> bool
    ensures { result ≡ list_any (λ (case : ℕ × ℕ). case.1 == target) cases.now }
{
    cases.iter().any(|case| case.1 == target)
}

/// Whether a terminator names the label.
fn names(end: &End, target: u32) -> bool
    ensures { result ≡ has (end_targets (seen_end end.now)) target }
{
    match end {
        End::Branch(label) => *label == target,
        End::BranchIf(one, other) => *one == target || *other == target,
        End::Switch(default, cases) => *default == target || has_case(cases, target),
        End::Return | End::Unreachable | End::Open => false,
    }
}

/// Whether a block branches to the label.
pub(crate) fn branches(labels: &Labels, header: u32, target: u32) -> bool
    ensures { result ≡ branches_in labels.now header target }
{
    match labels.block(header) {
        Some(block) => names(&block.end, target),
        None => false,
    }
}

impl Walked {
    ghost use Rattle.std.specs.Prelude.{◌≡◌, ◌<◌, length};
    ghost use Rattle.spv_walk.specs.Contexts.{is_fall as fall_in, begins_case as case_in};
    ghost use Rattle.spv_walking.specs.Places.{context_at, falls_here as falls_in};

    /// Whether the OpSwitch of a header at a place branches to the target, and the target is no exit there.
    fn begins_case(
        &self,
        labels: &Labels,
        header: u32,
        merge: u32,
        place: usize,
        target: u32,
    ) -> bool
        requires { place < length self.now.rows }
        ensures { result ≡ case_in labels.now header merge (context_at self.now.rows place) target }
    {
        branches(labels, header, target)
            && !(target == merge || self.rows().leaves_loop(place, target))
    }

    /// Whether the innermost construct round a place is a switch, and the target the first block of another case of it.
    fn falls_here(&self, labels: &Labels, place: usize, target: u32) -> bool
        requires { place < length self.now.rows }
        ensures { result ≡ falls_in labels.now (context_at self.now.rows place) target }
    {
        match self.rows().level(place) {
            Some(Level::Arm(header, merge, arm)) => {
                let outer = self.rows().outer(place);
                self.begins_case(labels, header, merge, outer, target) && target != arm
            }
            _ => false,
        }
    }

    /// Whether the target is the first block of another case of a switch round a place. Looks at each construct round the
    /// place, and at the OpSwitch of each switch.
    #[tactic(auto, using(crate::proofs::CaseFalls::fall_outward))]
    pub fn is_fall(&self, labels: &Labels, place: usize, target: u32) -> bool
        requires { place < length self.now.rows }
        ensures { result ≡ fall_in labels.now (context_at self.now.rows place) target }
    {
        let mut place = place;
        'outward: while self.rows().depth(place) > 0 {
            if self.falls_here(labels, place, target) {
                return true;
            }
            place = self.rows().outer(place);
        }
        false
    }
}
