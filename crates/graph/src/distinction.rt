ghost use Rattle.std.specs.Prelude.{◌≡◌, ◌<◌, ◌&&◌, not, nat_eq, nat_lt, length, slice_index, slice_set, IfOk};
ghost use Rattle.std.specs.List.{All};
ghost use Rattle.graph.specs.Distinct.{distinct as distinct_of, places_below, distinct_rows, AreUpTo};

use crate::places::Places;
use crate::rows::Graph;
use spv_base::NoMemory;
use std::alloc::Global;
use std::marker::Model;

/// What drops the repetitions of rows, over a number of places. It remembers for each place the number of the last
/// row that named it, so that it takes no more time for a row than the row is long.
#[derive(Debug, Drop)]
pub struct Sieve {
    last: Vec<usize>,
    stamp: usize,
}

impl Model for Sieve {
    ghost use Rattle.std.specs.Prelude.{ℕ, length};
    ghost use Rattle.graph.specs.Distinct.{AreUpTo};

    ghost Value = { ℕ };

    ghost view = { λ sieve. length sieve.last.items };

    ghost invariant = { λ sieve. AreUpTo sieve.stamp sieve.last.items };
}

/// A stamp above all others; where there is none, the others are forgotten first.
fn next_stamp(last: &mut Vec<usize>, stamp: usize) -> usize
    requires { AreUpTo stamp last.old.items }
    ensures count { length last.new.items ≡ length last.old.items }
    ensures above { All (λ s. s < result) last.new.items }
{
    if stamp < usize::MAX {
        return stamp + 1;
    }
    'stamps: for old in last.iter_mut() {
        *old = 0;
    }
    1
}

/// Whether a place is one, and has not the stamp yet. From now on it has.
fn is_first(last: &mut Vec<usize>, stamp: usize, place: usize) -> bool
    ensures first { result ≡ (nat_lt place (length last.old.items) && not (nat_eq (slice_index last.old.items place) stamp)) }
    ensures after { last.new.items ≡ slice_set last.old.items place stamp }
{
    if place >= last.len() || last[place] == stamp {
        return false;
    }
    last[place] = stamp;
    true
}

/// The places of a row, each where it stands first; they get the stamp.
fn named_once(
    alloc: Global,
    last: &mut Vec<usize>,
    stamp: usize,
    row: &[usize],
) -> Result<Places, NoMemory>
    requires { All (λ s. s < stamp) last.old.items }
    ensures count { length last.new.items ≡ length last.old.items }
    ensures up_to { AreUpTo stamp last.new.items }
    ensures distinct { IfOk result (λ places. places ≡ distinct_of (places_below (length last.old.items) row.now)) }
{
    let mut places = Places::new(alloc);
    'row: for place in row {
        if is_first(last, stamp, *place) {
            places.push(*place)?;
        }
    }
    Ok(places)
}

impl Sieve {
    /// A sieve over the places from 0 on, `count` of them.
    pub fn new(alloc: Global, count: usize) -> Result<Sieve, NoMemory>
        ensures { IfOk result (λ sieve. sieve ≡ count) }
    {
        Ok(Sieve {
            last: vec![in alloc; 0; count]?,
            stamp: 0,
        })
    }

    /// The places that a row names, each once, in the order in which it names them first. Numbers past the last place
    /// are left out. The sieve serves for any number of rows, also after memory was wanting.
    pub fn distinct(&mut self, alloc: Global, row: &[usize]) -> Result<Places, NoMemory>
        ensures count { self.new ≡ self.old }
        ensures distinct { IfOk result (λ places. places ≡ distinct_of (places_below self.old row.now)) }
    {
        self.stamp = next_stamp(&mut self.last, self.stamp);
        named_once(alloc, &mut self.last, self.stamp, row)
    }
}

/// The graph whose rows name each of their places once, in the order in which they name them first. Numbers past the
/// last place are left out.
pub fn distinct(alloc: Global, graph: &Graph) -> Result<Graph, NoMemory>
    ensures { IfOk result (λ answer. answer ≡ distinct_rows graph.now) }
{
    let mut sieve = Sieve::new(alloc, graph.count())?;
    let mut answer = Graph::new(alloc);
    'places: for place in 0..graph.count() {
        answer.push(sieve.distinct(alloc, graph.row(place))?)?;
    }
    Ok(answer)
}
