ghost use Rattle.std.specs.Prelude.{◌≡◌, ◌⊎◌, ◌≤◌};

use crate::walked::Walked;
use spv_blocks::{Function, Labels};

/// The greater of two depths.
fn greater(one: usize, other: usize) -> usize
    ensures first { one ≤ result }
    ensures second { other ≤ result }
    ensures either { (result ≡ one) ⊎ (result ≡ other) }
{
    if one < other { other } else { one }
}

impl Walked {
    ghost use Rattle.std.specs.Prelude.{◌≡◌};
    ghost use Rattle.spv_walk.specs.Walked.{InPlaces};
    ghost use Rattle.spv_walking.specs.Depths.{IsDepth, depth_at as depth_in};
    ghost use Rattle.spv_walking.specs.Table.{context_of};

    /// How many constructs lie round the end of a block; 0 where the walk does not come to it.
    fn depth_at(&self, labels: &Labels, label: u32) -> usize
        ensures { result ≡ depth_in labels.now label (context_of self.now label) }
    {
        match self.place(label) {
            Some(place) => self
                .rows()
                .depth_behind(place, labels.construct(label), label, label),
            None => 0,
        }
    }

    /// The greatest number of constructs round one point: of the blocks that the walk comes to, where a block that opens a
    /// construct ends within it; 0 where there is none.
    pub fn depth(&self, labels: &Labels, function: &Function) -> usize
        requires same { labels.now ≡ function.now }
        ensures { IsDepth labels.now (InPlaces (context_of self.now)) result }
    {
        let mut depth = 0;
        'each: for k in 0..function.count() {
            let label = function.block(k).label;
            depth = greater(depth, self.depth_at(labels, label));
        }
        depth
    }
}
