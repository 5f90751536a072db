ghost use Rattle.spv_exits.specs.Laws.{CrowdedMore, NestedMore, OneNumber, OneNumberWalked};

/// A function that breaks no rule on structured control flow has one number of nested returns, whatever exact table of
/// its walk they are counted by. Does nothing.
pub fn one_number_law()
    ensures unbroken { OneNumber }
    ensures walked { OneNumberWalked }
{}

/// Functions are taken one by one: their numbers of nested returns add up, and so do the blocks that break the rule.
/// Does nothing.
pub fn one_by_one_law()
    ensures nested { NestedMore }
    ensures crowded { CrowdedMore }
{}
