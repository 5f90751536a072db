ghost use Rattle.std.specs.Prelude.{◌≡◌, ◌++◌, OnOk, drop};
ghost use Rattle.spv_module.specs.View.{seen};
ghost use Rattle.spv_signatures.specs.Functions as functions;

use spv_ids::word;
use spv_module::layout::is_line;
use spv_module::{InstList, NoMemory, View};
use spv_opcodes::op;

/// A parameter of a function: the id of its type, and its own.
#[derive(Clone, Copy, Debug, PartialEq, Eq)]
pub struct Parameter {
    pub ty: u32,
    pub id: u32,
}

/// Whether the instruction is a parameter.
pub fn is_parameter(inst: &View) -> bool
    ensures { result ≡ functions.is_parameter (seen inst.now) }
{
    inst.opcode() == op::FUNCTION_PARAMETER
}

/// The parameter that an OpFunctionParameter is.
fn read(inst: &View) -> Parameter
    ensures { result ≡ functions.parameter (seen inst.now) }
{
    Parameter {
        ty: word(inst, 1),
        id: word(inst, 2),
    }
}

/// Adds the parameters that the instructions from a place on begin with. It looks at no instruction behind the first
/// that is neither a parameter nor a line mark.
pub fn append(
    parameters: &mut Vec<Parameter>,
    insts: &InstList,
    from: usize,
) -> Result<(), NoMemory>
    ensures { OnOk result (parameters.new.items ≡ parameters.old.items ++ functions.leading_parameters (drop from insts.now)) }
{
    'instructions: for k in from..insts.count() {
        let inst = insts.at(k);
        if !is_line(&inst) {
            if !is_parameter(&inst) {
                return Ok(());
            }
            parameters.push(read(&inst))?;
        }
    }
    Ok(())
}
