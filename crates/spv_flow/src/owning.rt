ghost use Rattle.std.specs.Prelude.{◌≡◌, true};
ghost use Rattle.spv_blocks.specs.Blocks.{is_it};
ghost use Rattle.spv_blocks.specs.Places.{place as place_in};
ghost use Rattle.spv_walk.specs.Numbering.{HasOwnLabels};

use spv_blocks::{Function, Labels};

/// Whether the first block with a label is the k-th.
fn stands_at(labels: &Labels, label: u32, k: usize) -> bool
    ensures { result ≡ is_it k (place_in labels.now label) }
{
    match labels.place(label) {
        Some(place) => place == k,
        None => false,
    }
}

/// Whether no two blocks of a function have one label.
pub fn has_own_labels(function: &Function, labels: &Labels) -> bool
    requires same { labels.now ≡ function.now }
    ensures yes { result ≡ true → HasOwnLabels function.now }
    ensures no { HasOwnLabels function.now → result ≡ true }
{
    'each: for k in 0..function.count() {
        if !stands_at(labels, function.block(k).label, k) {
            return false;
        }
    }
    true
}
