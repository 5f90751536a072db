ghost use Rattle.std.specs.Prelude.{◌≡◌, IfOk};

use spv_base::NoMemory;
use sqlite_items::Items;
use std::alloc::Global;

/// The items in their order, to be taken one by one.
pub fn in_order<T: Drop>(alloc: Global, mut items: Items<T>) -> Result<Vec<T>, NoMemory>
    ensures { IfOk result (λ taken. taken.items ≡ items) }
{
    let mut taken = Vec::new(alloc);
    'taking: while let Some(item) = items.pop() {
        taken.push(item)?;
    }
    taken.as_mut_slice().reverse();
    Ok(taken)
}
