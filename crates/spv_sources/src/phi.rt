ghost use Rattle.std.specs.Prelude.{◌≡◌};
ghost use Rattle.spv_module.specs.Instruction.{opcode as opcode_in};
ghost use Rattle.spv_module.specs.View.{seen};
ghost use Rattle.spv_opcodes.specs.declared.op.TheConstants as op;

use spv_module::View;
use spv_opcodes::op;

/// An OpPhi.
#[derive(Clone, Copy)]
pub(crate) struct Phi<'a> {
    pub(crate) inst: View<'a>,
    ghost is_phi: { opcode_in (seen inst) ≡ op.PHI },
}

impl<'a> Phi<'a> {
    ghost use Rattle.std.specs.Prelude.{◌≡◌, false, MatchOption};
    ghost use Rattle.spv_module.specs.View.{seen};
    ghost use Rattle.spv_sources.specs.Tail.{is_phi_inst};

    /// The instruction as an OpPhi; None where it is another.
    pub(crate) fn of(inst: View<'a>) -> Option<Phi<'a>>
        ensures { MatchOption result (is_phi_inst (seen inst.entry) ≡ false) (λ phi. seen phi.inst ≡ seen inst.entry) }
    {
        if inst.opcode() == op::PHI {
            Some(Phi { inst })
        } else {
            None
        }
    }
}
