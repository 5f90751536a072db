ghost use Rattle.std.specs.Prelude.{◌≡◌, ◌<◌, ◌≤◌, length, slice_index, ℕ, OnOk};

use spv_module::NoMemory;
use std::alloc::Global;
use std::marker::Model;

/// A number for each of some ids. It takes memory in proportion to the greatest of them.
#[derive(Debug, Drop)]
pub(crate) struct Numbers {
    /// By the id one more than its number; 0 where it has none.
    cells: Vec<u32>,
}

impl Model for Numbers {
    ghost use Rattle.std.specs.Prelude.{List, ℕ};

    ghost Value = { List ℕ };

    ghost view = { λ numbers. numbers.cells.items };
}

/// Makes room for `count` cells. What is past the end is 0 before and afterwards.
fn make_room(cells: &mut Vec<u32>, count: usize) -> Result<(), NoMemory>
    ensures room { OnOk result (count ≤ length cells.new.items) }
    ensures same { OnOk result ((id : ℕ) → slice_index cells.new.items id ≡ slice_index cells.old.items id) }
{
    if cells.len() < count {
        cells.resize(count, 0)?;
    }
    Ok(())
}

impl Numbers {
    ghost use Rattle.std.specs.Prelude.{◌≡◌, ◌<◌, ◌+◌, ◌^◌, ℕ, cond, nat_eq, None, Some, OnOk};
    ghost use Rattle.std.specs.Option.{option_or};
    ghost use Rattle.spv_ids.specs.Places.{number_in};

    /// Of no ids.
    pub(crate) fn new(alloc: Global) -> Numbers
        ensures { (id : ℕ) → number_in result id ≡ None }
    {
        Numbers {
            cells: Vec::new(alloc),
        }
    }

    /// The number of an id.
    pub(crate) fn get(&self, id: u32) -> Option<u32>
        ensures { result ≡ number_in self.now id }
    {
        let cell = self.cells.get(id as usize).copied().unwrap_or(0);
        if cell == 0 { None } else { Some(cell - 1) }
    }

    /// Gives an id a number, unless it has one.
    pub(crate) fn keep(&mut self, id: u32, number: u32) -> Result<(), NoMemory>
        requires { number + 1 < 2 ^ 32 }
        ensures { OnOk result ((other : ℕ) → number_in self.new other ≡ option_or (number_in self.old other) (cond (nat_eq other id) (Some number) None)) }
    {
        let cell = id as usize;
        make_room(&mut self.cells, cell + 1)?;
        if self.cells[cell] == 0 {
            self.cells[cell] = number + 1;
        }
        Ok(())
    }
}
