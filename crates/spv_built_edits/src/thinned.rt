// The laws of what is left of a module that is built.

ghost use Rattle.spv_built_edits.specs.ThinnedLaws.{NoParametersBehind, ThinnedIsBuilt};

/// What is left of a module that is built is built of its functions without the steps that were dropped, where what went is
/// named by nothing that stays, the shape of the module is kept, and so are its entry points. That nothing is dropped from in
/// front of parameters follows from the layout.
pub fn thinned_law()
    ensures built { ThinnedIsBuilt }
    ensures parameters { NoParametersBehind }
{}
