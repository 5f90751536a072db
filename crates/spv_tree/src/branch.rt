use spv_base::Id;
use sqlite_items::Items;

/// A branch that carries values.
#[derive(Drop)]
pub struct Branch {
    /// The block that it ends.
    pub block: Id,
    pub target: Id,
    /// A value for each parameter of the target.
    pub values: Items<Id>,
}
