// The law of the answers. Its function does nothing when it is called.

ghost use Rattle.spv_profile.specs.Laws.{OneAnswer};

/// Words are at most one of admitted, too nested and refused, and are refused by one rule at one place alone.
pub fn one_answer_law()
    ensures { OneAnswer }
{}
