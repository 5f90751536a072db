ghost use Rattle.std.specs.Prelude.{◌≡◌, ◌<◌, ◌++◌, ◌∷◌, [], Some, length, slice_get, OnOk, OnErr};

use spv_module::NoMemory;
use std::alloc::Global;
use std::marker::Model;

/// A mark for each instruction of a module.
#[derive(Debug, Drop)]
pub struct Marks {
    flags: Vec<bool>,
}

impl Model for Marks {
    ghost use Rattle.std.specs.Prelude.{Bool, List};

    ghost Value = { List Bool };

    ghost view = { λ marks. marks.flags.items };
}

impl Marks {
    /// No marks yet.
    pub(crate) fn new(alloc: Global) -> Marks
        ensures { result ≡ [] }
    {
        Marks {
            flags: Vec::new(alloc),
        }
    }

    /// Says of the next instruction whether it is marked. Where memory is wanting the marks stay as they were.
    pub(crate) fn push(&mut self, mark: bool) -> Result<(), NoMemory>
        ensures ok { OnOk result (self.new ≡ self.old ++ mark ∷ []) }
        ensures err { OnErr result (self.new ≡ self.old) }
    {
        self.flags.push(mark)?;
        Ok(())
    }

    /// Whether the k-th instruction, counted from 0, is marked.
    pub fn has(&self, k: u32) -> bool
        requires { k < length self.now }
        ensures { slice_get self.now k ≡ Some result }
    {
        self.flags[k as usize]
    }
}
