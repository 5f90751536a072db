// A law over the definitions. Its function does nothing when it is called.

ghost use Rattle.std.specs.Prelude.{List};
ghost use Rattle.spv_module.specs.Instruction.{Instruction};
ghost use Rattle.spv_calls.specs.Broken.{Tests, AreTests};

/// Of each list of instructions some tests tell which calls and which interfaces fit.
pub fn tests_law()
    ensures { (insts : List Instruction) → (tests : Tests) × AreTests insts tests }
{}
