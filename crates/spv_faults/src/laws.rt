ghost use Rattle.spv_faults.specs.Listed.{FirstOfMissing, FirstOfWalked};

/// The first of what the blocks in a table of contexts break, and the first block that is not in it, are the first in
/// the order of the blocks. Does nothing.
pub fn listed_law()
    ensures walked { FirstOfWalked }
    ensures missing { FirstOfMissing }
{}
