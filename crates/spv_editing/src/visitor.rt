ghost use Rattle.std.specs.Prelude.{[], ◌∷◌, List, OnOk};
ghost use Rattle.spv_editing.specs.Showing.{Shown, AStep, AUse, IsShown};

use spv_base::{Id, NoMemory};
use spv_module::Inst;

/// One that is shown a function's instructions and the ids that are used, in the order of the tree.
pub trait Visitor {
    /// What it knows once it was shown these.
    ghost has_seen: { Self → List Shown → Type 0 };

    /// Shows an instruction that is an `Item::Op` or one of a loop's `steps`.
    fn step(&mut self, inst: &Inst) -> Result<(), NoMemory>
        ensures { OnOk result (IsShown has_seen (AStep inst.now.words ∷ []) self.old self.new) };

    /// Shows an id that is the value of a branch, a condition, a selector or a returned value.
    fn used(&mut self, id: Id) -> Result<(), NoMemory>
        ensures { OnOk result (IsShown has_seen (AUse id ∷ []) self.old self.new) };
}
