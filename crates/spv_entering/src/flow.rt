ghost use Rattle.std.specs.Prelude.{◌≡◌, ℕ, IfOk, true};
ghost use Rattle.spv_blocks.specs.Blocks.{is_it, has, branches, is_label, targets as targets_in};
ghost use Rattle.spv_blocks.specs.Edges.{predecessors_of};
ghost use Rattle.spv_blocks.specs.Places.{place as place_in};
ghost use Rattle.spv_blocks.specs.Tables.{found};
ghost use Rattle.spv_walk.specs.Tables.{is_back_by};
ghost use Rattle.spv_entering.specs.Flow.{AreLabelsAt, IsFlow, before as before_in};

use spv_base::NoMemory;
use spv_blocks::{Edges, Labels, Table};
use std::alloc::Global;
use std::marker::Model;

/// A list of labels.
#[derive(Debug, Drop)]
struct Row {
    labels: Vec<u32>,
}

impl Model for Row {
    ghost use Rattle.std.specs.Prelude.{List, ℕ};

    ghost Value = { List ℕ };

    ghost view = { λ row. row.labels.items };
}

impl Row {
    /// The labels.
    fn as_slice(&self) -> &[u32]
        ensures { result.now ≡ self.now }
    {
        &self.labels
    }
}

/// The label of the block at a place, if it is the first with its label.
fn label_at(labels: &Labels, place: usize) -> Option<u32>
    ensures { (q : ℕ) → is_it q result ≡ is_it place (place_in labels.now q) }
{
    let label = labels.label(place)?;
    match labels.place(label) {
        Some(first) if first == place => Some(label),
        _ => None,
    }
}

/// The labels of the blocks at places, each the first with its label.
fn labels_at(alloc: Global, labels: &Labels, places: &[usize]) -> Result<Row, NoMemory>
    ensures { IfOk result (λ row. AreLabelsAt labels.now places.now row) }
{
    let mut row = Vec::new(alloc);
    'places: for place in places {
        if let Some(label) = label_at(labels, *place) {
            row.push(label)?;
        }
    }
    Ok(Row { labels: row })
}

/// A function with the blocks that branch to each of its labels. It borrows the labels.
#[derive(Debug, Drop)]
pub struct Flow<'a, 'f> {
    labels: &'a Labels<'f>,
    /// The labels of the blocks that branch to a block, by the number of the block.
    rows: Vec<Row>,
}

impl<'a, 'f> Model for Flow<'a, 'f> {
    ghost use Rattle.spv_entering.specs.Flow.{Flow as FlowOf, IsFlow};

    ghost Value = { FlowOf };

    ghost view = { λ flow. record { code = flow.labels.now; rows = flow.rows.items } };

    ghost invariant = { λ flow. IsFlow (record { code = flow.labels.now; rows = flow.rows.items }) };
}

/// For each block the labels of the blocks that branch to it.
fn rows(alloc: Global, labels: &Labels, edges: &Edges) -> Result<Vec<Row>, NoMemory>
    requires { edges.now.predecessors ≡ predecessors_of labels.now }
    ensures { IfOk result (λ rows. IsFlow (record { code = labels.now; rows = rows.items })) }
{
    let mut rows = Vec::new(alloc);
    'each: for j in 0..labels.count() {
        rows.push(labels_at(alloc, labels, edges.predecessors.row(j))?)?;
    }
    Ok(rows)
}

impl<'a, 'f> Flow<'a, 'f> {
    ghost use Rattle.std.specs.Prelude.{◌≡◌, ℕ, IfOk, true};

    /// The flow of a function, from its labels and its edges. It takes time in proportion to the edges, but for looking
    /// up their labels.
    pub fn of(
        alloc: Global,
        labels: &'a Labels<'f>,
        edges: &Edges,
    ) -> Result<Flow<'a, 'f>, NoMemory>
        requires { edges.now.predecessors ≡ predecessors_of labels.now }
        ensures { IfOk result (λ flow. flow.code ≡ labels.now) }
    {
        Ok(Flow {
            labels,
            rows: rows(alloc, labels, edges)?,
        })
    }

    /// The labels of the function.
    pub fn labels(&self) -> &'a Labels<'f>
        ensures { result.now ≡ self.now.code }
    {
        self.labels
    }

    #[tactic(auto, unfolding(crate::specs::Flow::before))]
    /// The labels of the blocks that branch to a label of the function.
    pub fn before(&self, t: u32) -> &[u32]
        ensures now { result.now ≡ before_in self.now t }
        ensures branches { (q : ℕ) → is_label self.now.code t ≡ true → has (before_in self.now t) q ≡ branches self.now.code q t }
    {
        let Some(place) = self.labels.place(t) else {
            return &[];
        };
        match self.rows.get(place) {
            Some(row) => row.as_slice(),
            None => &[],
        }
    }

    /// The labels that the terminator of a block names, in order, with repetitions; none of what is no label.
    pub fn targets(&self, alloc: Global, b: u32) -> Result<Vec<u32>, NoMemory>
        ensures { IfOk result (λ labels. labels.items ≡ targets_in self.now.code b) }
    {
        match self.labels.block(b) {
            Some(block) => block.targets(alloc),
            None => Ok(Vec::new(alloc)),
        }
    }

    /// Whether a branch from q to t is a back edge of the loop t, by a table of tops.
    pub fn is_back(&self, tops: &Table<u32>, t: u32, q: u32) -> bool
        ensures { result ≡ is_back_by self.now.code (found tops.now) t q }
    {
        match tops.get(q) {
            Some(h) => h == t && self.labels.construct(q).is_none(),
            None => false,
        }
    }
}
