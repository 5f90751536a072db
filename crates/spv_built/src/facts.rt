// Facts that tell the definition from its likely mistakes.

ghost use Rattle.spv_built.specs.Facts.{HeaderIsNotBuilt};

/// A header without instructions is not built, whatever the functions: a memory model is wanting.
pub fn facts_of_built_modules()
    ensures { HeaderIsNotBuilt }
{}
