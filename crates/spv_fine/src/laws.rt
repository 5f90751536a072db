// The laws of fine trees.

ghost use Rattle.spv_fine.specs.Laws.{FineIsAvailable, ListingIsAvailable, SentIsPassed};

/// What a branch of a fine function carries, each way up to the end of its block has passed.
pub fn passing_law()
    ensures { SentIsPassed }
{}

/// The instructions of a fine function use what is available where they stand: none breaks 503. So do those of the listing
/// of a fine tree that a function spells.
pub fn available_law()
    ensures fine { FineIsAvailable }
    ensures listing { ListingIsAvailable }
{}
