// The laws of a module without its debug instructions.

ghost use Rattle.spv_stripped.specs.Laws.{StrippedFormIsModule, StrippedIsModule};

/// What is left of a module of the profile in normal form without its strings, sources, names and notes is such a module,
/// under the bound that its ids ask for; also where its instructions are said to stand elsewhere.
pub fn stripped_law()
    ensures module { StrippedIsModule }
    ensures form { StrippedFormIsModule }
{}
