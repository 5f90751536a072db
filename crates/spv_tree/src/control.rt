ghost use Rattle.std.specs.Prelude.{◌≡◌, true, SomeIff};
ghost use Rattle.spv_tree.specs.Control.{is_control};

use spv_grammar::enumerants::is_known_enumerant;
use spv_grammar::kind::Enumerant;
use std::marker::Model;

/// The control mask of a merge instruction. Of an OpSelectionMerge it may have the bits Flatten (1) and DontFlatten (2), of an
/// OpLoopMerge the bits Unroll (1) and DontUnroll (2), and no other.
#[derive(Clone, Copy, Debug, PartialEq, Eq)]
pub struct Control {
    mask: u32,
}

impl Model for Control {
    ghost use Rattle.std.specs.Prelude.{◌≡◌, ℕ, true};
    ghost use Rattle.spv_tree.specs.Control.{is_control};

    ghost Value = { ℕ };

    ghost view = { λ control. control.mask };

    ghost invariant = { λ control. is_control control.mask ≡ true };

    ghost inverse = { λ n. record { mask = n } };
}

impl Control {
    /// The control of this mask. None exactly where it has another bit than 1 and 2.
    pub fn new(mask: u32) -> Option<Control>
        ensures { SomeIff result (is_control mask ≡ true) mask }
    {
        if is_known_enumerant(Enumerant::SelectionControl, mask) {
            Some(Control { mask })
        } else {
            None
        }
    }

    /// The mask.
    pub fn mask(self) -> u32
        ensures same { result ≡ self }
        ensures known { is_control result ≡ true }
    {
        self.mask
    }
}
