// Facts of small functions, which tell the laws from their likely mistakes.

ghost use Rattle.spv_unbroken.specs.Facts.{OthersBreakRules, PlacedIsUnbroken, TreeLeavesForTheLoop, UnnamedArmIsNotSeen, UnnamedBlockBreaksRules, UnnamedLoopIsEntered, UnseenArmIsLeftOut, UnseenValueBreaksRules};

/// A function that is unbroken as it lies in a module; sound ones that are not structured, and break a rule; and one that breaks
/// none and is not structured, since the listing does not show one of its arms.
pub fn facts_of_unbroken()
    ensures unbroken { PlacedIsUnbroken }
    ensures others { OthersBreakRules }
    ensures unseen { UnnamedArmIsNotSeen }
{}

/// An arm that is not named is left out, unless a rule is broken: where it has a block of its own, or leaves with values.
/// And where it is a loop, a function that breaks no rule may not do what the machine does with its instructions.
#[tactic(auto, unfolding(spv_machine::specs::Setting::setting, spv_meaning::specs::Statements::statements_in))]
pub fn facts_of_arms()
    ensures left_out { UnseenArmIsLeftOut }
    ensures block { UnnamedBlockBreaksRules }
    ensures value { UnseenValueBreaksRules }
    ensures entered { UnnamedLoopIsEntered }
    ensures leaves { TreeLeavesForTheLoop }
{}
