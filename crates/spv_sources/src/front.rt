ghost use Rattle.std.specs.Prelude.{◌≡◌};
ghost use Rattle.spv_blocks.specs.Blocks.{construct as construct_in};
ghost use Rattle.spv_normal.specs.Order.{is_front as front_in, is_loop as loop_in};

use spv_blocks::{Construct, Labels};

/// Whether a block is the header of a loop.
pub fn is_loop(labels: &Labels, label: u32) -> bool
    ensures { result ≡ loop_in (construct_in labels.now label) }
{
    match labels.construct(label) {
        Some(Construct::Loop(_, _)) => true,
        _ => false,
    }
}

/// Whether a block is a merge block, a continue target or a loop's header.
pub fn is_front(labels: &Labels, label: u32) -> bool
    ensures { result ≡ front_in labels.now label }
{
    labels.named(label) != 0 || is_loop(labels, label)
}
