ghost use Rattle.std.specs.Prelude.{IfSome};
ghost use Rattle.spv_types.specs.Whole.{Rises};

use spv_base::MAGIC;
use spv_module::{Flat, decode};
use std::alloc::Global;

/// The module that these words spell, if they spell one.
pub(crate) fn module(alloc: Global, words: &[u32]) -> Option<Flat>
    ensures { IfSome result (λ flat. Rises flat.insts) }
{
    if words.len() < 5 || words.len() > 1000 || words[0] != MAGIC {
        return None;
    }
    match decode(alloc, words) {
        Ok(flat) => Some(flat),
        Err(_) => None,
    }
}
