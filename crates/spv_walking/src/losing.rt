ghost use Rattle.std.specs.Prelude.{◌≡◌};
ghost use Rattle.spv_walk.specs.Found.{earlier_of};

use crate::refusing::BAD_TARGET;
use crate::walked::Walked;
use spv_base::Refusal;
use spv_blocks::{Function, Labels};

/// The earlier of two refusals, if there is one.
fn earlier(one: Option<Refusal>, other: Option<Refusal>) -> Option<Refusal>
    ensures { result ≡ earlier_of one other }
{
    match (one, other) {
        (None, other) => other,
        (Some(one), None) => Some(one),
        (Some(one), Some(other)) => {
            if other.at < one.at || (other.at == one.at && other.rule < one.rule) {
                Some(other)
            } else {
                Some(one)
            }
        }
    }
}

impl Walked {
    ghost use Rattle.std.specs.Prelude.{◌≡◌};
    ghost use Rattle.spv_blocks.specs.Blocks.{block as block_in};
    ghost use Rattle.spv_walk.specs.Rules.{IsFirst};
    ghost use Rattle.spv_walk.specs.Walked.{InPlaces};
    ghost use Rattle.spv_walk.specs.Found.{Missing};
    ghost use Rattle.spv_walking.specs.Lost.{missing_at as missing_in};
    ghost use Rattle.spv_walking.specs.Table.{context_of};

    /// What is broken at the block of a label that the walk does not come to.
    fn missing_at(&self, labels: &Labels, label: u32) -> Option<Refusal>
        ensures { result ≡ missing_in (context_of self.now label) (block_in labels.now label) }
    {
        match (self.place(label), labels.block(label)) {
            (None, Some(block)) => Some(Refusal {
                rule: BAD_TARGET,
                at: block.at,
            }),
            (None, None) => None,
            (Some(_), _) => None,
        }
    }

    /// Of the blocks that the walk does not come to, 402 BadTarget at the OpLabel of the one that stands first in the module.
    pub fn missing(&self, labels: &Labels, function: &Function) -> Option<Refusal>
        requires same { labels.now ≡ function.now }
        ensures { IsFirst (Missing labels.now (InPlaces (context_of self.now))) result }
    {
        let mut refusal = None;
        'each: for k in 0..function.count() {
            let label = function.block(k).label;
            refusal = earlier(refusal, self.missing_at(labels, label));
        }
        refusal
    }
}
