// The laws of modules that are built.

ghost use Rattle.spv_built.specs.Laws.{BuiltIsModule, ModuleIsBuilt};

/// What is built is a module: no rule of the profile is broken, no function nests too deep, and it is its own normal form.
/// And each module is built of the trees that its functions are read as.
pub fn built_law()
    ensures module { BuiltIsModule }
    ensures built { ModuleIsBuilt }
{}
