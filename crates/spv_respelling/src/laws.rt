// The laws of listings that are read again.

ghost use Rattle.spv_respelling.specs.Laws.{FirstIsTaken, ListingIsAdmitted, NormalIsSpelled, NormalStays, ReadsAlike};
ghost use Rattle.spv_respelling.specs.Laws.{ReadsBack, RespellsListing, SpelledAreAlike, SpelledIsOne, SpelledTreeIsNormal};

/// The listing of a normal tree spells it. What a clean function spells is normal, so the tree's listing spells it again.
pub fn respelling_law()
    ensures trees { NormalIsSpelled }
    ensures normal { SpelledTreeIsNormal }
    ensures spelled { RespellsListing }
{}

/// The listing is admitted, and the normal form of a function in normal form is itself.
pub fn normal_law()
    ensures admitted { ListingIsAdmitted }
    ensures stays { NormalStays }
{}

/// A function spells one tree, if of two exits the first is taken, so what is read of the listing of a tree is that tree.
pub fn reading_law()
    ensures one { SpelledIsOne }
    ensures back { ReadsBack }
{}

/// Of two exits either may be taken, and two trees that a function spells differ in nothing else. So what is read of the
/// listing of a tree is that tree, but for which of two exits is taken.
pub fn exits_law()
    ensures taken { FirstIsTaken }
    ensures alike { SpelledAreAlike }
    ensures back { ReadsAlike }
{}
