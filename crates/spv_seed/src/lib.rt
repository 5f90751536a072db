//! The hash function of tables whose keys come from strangers.
#![tactic(auto)]

ghost use Rattle.std.specs.Prelude.{◌≡◌};

use spv_module::InstList;
use std::fmt;
use std::fmt::{Debug, Formatter};
use std::hash::{BuildHasher, DefaultHasher, Hash, Hasher};

/// Begins each hash with all words of a module. So the hash of an id depends on the whole module that it
/// stands in, and differs from module to module.
#[derive(Clone, Copy)]
pub struct Seed {
    /// What has read the words.
    begun: DefaultHasher,
}

impl Seed {
    /// The seed for tables of these instructions. It takes time in proportion to their words.
    pub fn of(insts: &InstList) -> Seed {
        let mut begun = DefaultHasher::new();
        'instructions: for k in 0..insts.count() {
            insts.at(k).words.hash(&mut begun);
        }
        Seed { begun }
    }
}

impl BuildHasher for Seed {
    type Hasher = DefaultHasher;

    ghost build_hasher = { λ seed. seed.begun };

    fn build_hasher(&self) -> DefaultHasher {
        self.begun
    }
}

impl Debug for Seed {
    fn fmt<W: fmt::Write>(&self, f: &mut Formatter<W>) -> fmt::Result {
        f.write_str("Seed")
    }
}
