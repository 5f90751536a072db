// The law of a module that is built and of the one with a declaration more.

ghost use Rattle.spv_built_edits.specs.AddedLaws.{AddedIsBuilt};

/// A module that is built is so with one type, constant or global variable more, where this breaks no rule on declarations
/// and needs no binding.
pub fn added_law()
    ensures { AddedIsBuilt }
{}
