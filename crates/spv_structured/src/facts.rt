// Facts of small functions, which tell the definitions from their likely mistakes.

ghost use Rattle.spv_structured.specs.Facts.{OthersAreNotStructured, PlacedBreaksNothing, SamplesAreStructured};

/// Facts of small functions that are structured, one of which breaks no rule as it lies in a module, and of some that are
/// not, each for one reason.
pub fn facts_of_structure()
    ensures structured { SamplesAreStructured }
    ensures others { OthersAreNotStructured }
    ensures unbroken { PlacedBreaksNothing }
{}
