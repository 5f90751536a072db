use spv_base::MAGIC;
use spv_module::{Flat, decode};
use std::alloc::Global;

/// The module that these words spell, if they spell one.
pub(crate) fn module(alloc: Global, words: &[u32]) -> Option<Flat> {
    if words.len() < 5 || words.len() > 1000 || words[0] != MAGIC {
        return None;
    }
    decode(alloc, words).ok()
}
