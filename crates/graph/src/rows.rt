ghost use Rattle.std.specs.Prelude.{◌≡◌, ◌<◌, ◌++◌, ◌∷◌, [], IfOk, OnOk, OnErr, length, replicate, slice_set};
ghost use Rattle.graph.specs.Rows.{row, added};

use crate::places::Places;
use spv_base::NoMemory;
use std::alloc::Global;
use std::marker::Model;

/// A directed graph: for each place the row of its successors. A row may name a place more than once, and may name a
/// number past the last place, from which no edge leads.
#[derive(Debug, Drop)]
pub struct Graph {
    alloc: Global,
    rows: Vec<Places>,
}

impl Model for Graph {
    ghost use Rattle.std.specs.Prelude.{List, ℕ};

    ghost Value = { List (List ℕ) };

    ghost view = { λ graph. graph.rows.items };
}

impl Graph {
    /// The graph with no place.
    pub fn new(alloc: Global) -> Graph
        ensures { result ≡ [] }
    {
        Graph {
            alloc,
            rows: Vec::new(alloc),
        }
    }

    /// The graph of `count` places with no edge.
    pub fn bare(alloc: Global, count: usize) -> Result<Graph, NoMemory>
        ensures { IfOk result (λ graph. graph ≡ replicate count []) }
    {
        let mut graph = Graph::new(alloc);
        'places: for _ in 0..count {
            graph.push_row(&[])?;
        }
        Ok(graph)
    }

    /// Adds a place, with the row of its successors. Where memory is wanting the graph stays as it was.
    pub fn push(&mut self, row: Places) -> Result<(), NoMemory>
        ensures ok { OnOk result (self.new ≡ self.old ++ row ∷ []) }
        ensures err { OnErr result (self.new ≡ self.old) }
    {
        self.rows.push(row)?;
        Ok(())
    }

    /// Adds a place, with a copy of the row of its successors. Where memory is wanting the graph stays as it was.
    pub fn push_row(&mut self, row: &[usize]) -> Result<(), NoMemory>
        ensures ok { OnOk result (self.new ≡ self.old ++ row.now ∷ []) }
        ensures err { OnErr result (self.new ≡ self.old) }
    {
        let row = Places::of(self.alloc, row)?;
        self.push(row)
    }

    /// Adds a successor at the end of a place's row. Where memory is wanting the graph stays as it was.
    pub fn add_edge(&mut self, from: usize, to: usize) -> Result<(), NoMemory>
        requires { from < length self.old }
        ensures ok { OnOk result (self.new ≡ slice_set self.old from (row self.old from ++ to ∷ [])) }
        ensures err { OnErr result (self.new ≡ self.old) }
    {
        self.rows[from].push(to)
    }

    /// Adds a successor at the end of a place's row, unless it is the last there already or the place is none. Where
    /// memory is wanting the graph stays as it was.
    pub fn add_once(&mut self, from: usize, to: usize) -> Result<(), NoMemory>
        ensures ok { OnOk result (self.new ≡ added self.old from to) }
        ensures err { OnErr result (self.new ≡ self.old) }
    {
        if from < self.count() && self.row(from).last() != Some(&to) {
            self.add_edge(from, to)?;
        }
        Ok(())
    }

    /// The number of places.
    pub fn count(&self) -> usize
        ensures { result ≡ length self.now }
    {
        self.rows.len()
    }

    /// The successors of a place; none of a number past the last place.
    pub fn row(&self, place: usize) -> &[usize]
        ensures { result.now ≡ row self.now place }
    {
        match self.rows.get(place) {
            Some(row) => row.as_slice(),
            None => &[],
        }
    }
}
