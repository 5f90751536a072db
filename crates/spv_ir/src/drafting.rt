ghost use Rattle.std.specs.Prelude.{◌≡◌, []};
ghost use Rattle.spv_module.specs.Code.{code_of, spelling};
ghost use Rattle.spv_draft.specs.Drafted.{finished};
ghost use Rattle.spv_ir.specs.Module.{IsSealable};

use crate::holding::Module;
use spv_draft::Draft;
use spv_placing::placed;

impl Module {
    /// A draft of the module. It takes no memory.
    pub fn draft(self) -> Draft
        ensures same { result ≡ record { header = self.header; insts = self.insts; given = [] } }
        ensures sealable { finished result ≡ self }
    {
        Draft::of(self.into_flat())
    }
}

/// The module that a draft has become, under the bound that is one more than the greatest id that its instructions name. It takes
/// no memory.
pub fn seal(draft: Draft) -> Module
    requires { IsSealable (finished draft) }
    ensures { result ≡ code_of (spelling (finished draft)) }
{
    Module::new(placed(draft.finish()))
}
