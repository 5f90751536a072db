ghost use Rattle.std.specs.Prelude.{◌≡◌, map, IfOk};
ghost use Rattle.spv_blocks.specs.Blocks.{seconds as seconds_in};
ghost use Rattle.spv_faults.specs.Once.{firsts as firsts_in, IsSetOnce};

use spv_base::NoMemory;
use std::alloc::Global;
use std::collections::BTreeSet;

/// The first number of each pair.
pub fn firsts(alloc: Global, pairs: &[(u32, u32)]) -> Result<Vec<u32>, NoMemory>
    ensures { IfOk result (λ numbers. numbers.items ≡ firsts_in pairs.now) }
{
    let mut numbers = Vec::new(alloc);
    'pairs: for pair in pairs {
        numbers.push(pair.0)?;
    }
    Ok(numbers)
}

/// The second number of each pair.
pub fn seconds(alloc: Global, pairs: &[(u32, u32)]) -> Result<Vec<u32>, NoMemory>
    ensures { IfOk result (λ numbers. numbers.items ≡ seconds_in pairs.now) }
{
    let mut numbers = Vec::new(alloc);
    'pairs: for pair in pairs {
        numbers.push(pair.1)?;
    }
    Ok(numbers)
}

/// The set of these numbers; None where one of them stands twice.
pub fn once(alloc: Global, numbers: &[u32]) -> Result<Option<BTreeSet<u32>>, NoMemory>
    ensures { IfOk result (λ set. IsSetOnce numbers.now set) }
{
    let mut set = BTreeSet::new(alloc);
    'numbers: for number in numbers {
        if !set.insert(*number)? {
            return Ok(None);
        }
    }
    Ok(Some(set))
}
