// The law of modules. Its function does nothing when it is called.

ghost use Rattle.spv_ir.specs.Laws.{AdmittedAgain, ModulesAreReady};

/// Over the instructions of a module the tables and the trees of its functions are found, if memory is there. Admitting what
/// was written of a module gives it back.
pub fn module_law()
    ensures ready { ModulesAreReady }
    ensures again { AdmittedAgain }
{}
