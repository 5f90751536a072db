ghost use Rattle.std.specs.Prelude.{◌≡◌, ◌++◌, ◌∷◌, [], IfOk, OnOk, OnErr, length};
ghost use Rattle.graph.specs.Rows.{is_marked};

use spv_base::NoMemory;
use std::alloc::Global;
use std::marker::Model;

/// A list of places.
#[derive(Debug, Drop)]
pub struct Places {
    items: Vec<usize>,
}

impl Model for Places {
    ghost use Rattle.std.specs.Prelude.{List, ℕ};

    ghost Value = { List ℕ };

    ghost view = { λ places. places.items.items };
}

impl Places {
    /// The list with no place.
    pub fn new(alloc: Global) -> Places
        ensures { result ≡ [] }
    {
        Places {
            items: Vec::new(alloc),
        }
    }

    /// The places of a vector.
    pub fn from_vec(items: Vec<usize>) -> Places
        ensures { result ≡ items.items }
    {
        Places { items }
    }

    /// The places of a slice.
    pub fn of(alloc: Global, places: &[usize]) -> Result<Places, NoMemory>
        ensures { IfOk result (λ list. list ≡ places.now) }
    {
        let items = Vec::from_slice(alloc, places)?;
        Ok(Places { items })
    }

    /// Adds a place at the end. Where memory is wanting the list stays as it was.
    pub fn push(&mut self, place: usize) -> Result<(), NoMemory>
        ensures ok { OnOk result (self.new ≡ self.old ++ place ∷ []) }
        ensures err { OnErr result (self.new ≡ self.old) }
    {
        self.items.push(place)?;
        Ok(())
    }

    /// All places.
    pub fn as_slice(&self) -> &[usize]
        ensures { result.now ≡ self.now }
    {
        &self.items
    }
}

/// Whether a place is marked; none past the end of the marks is.
pub fn is_marked(marks: &[bool], place: usize) -> bool
    ensures { result ≡ is_marked marks.now place }
{
    place < marks.len() && marks[place]
}
