ghost use Rattle.std.specs.Prelude.{◌≡◌, ◌++◌, OnOk};
ghost use Rattle.spv_editing.specs.Editing.{Edit};
ghost use Rattle.spv_editing.specs.Code.{words_in};

use spv_base::{Id, NoMemory};
use spv_module::Inst;
use std::alloc::Global;

/// What a pass makes of a function's instructions and of the ids that are used.
pub trait Editor {
    /// The edit: the same at each place.
    ghost edit: { Self → Edit };

    /// Adds what stands for an instruction that is an `Item::Op` or one of a loop's `steps`.
    fn step(&self, alloc: Global, inst: Inst, made: &mut Vec<Inst>) -> Result<(), NoMemory>
        ensures { OnOk result (words_in made.new.items ≡ words_in made.old.items ++ (edit self.now).steps inst.words) };

    /// What stands for an id that is the value of a branch, a condition, a selector or a returned value.
    fn used(&self, id: Id) -> Id
        ensures { result ≡ (edit self.now).uses id };
}
