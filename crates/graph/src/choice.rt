ghost use Rattle.std.specs.Prelude.{ℕ, MatchOption};
ghost use Rattle.graph.specs.Choice.{IsTheOne};

use crate::places::is_marked;

/// The one place of a list that is not marked, where the list names exactly one such place, if more than once too.
/// What lies past the end of the marks is not marked.
pub fn the_one(places: &[usize], marks: &[bool]) -> Option<usize>
    ensures { MatchOption result ((place : ℕ) → ¬ IsTheOne places.now marks.now place) (λ place. IsTheOne places.now marks.now place) }
{
    let mut found = None;
    'places: for place in places {
        if is_marked(marks, *place) {
            continue;
        }
        match found {
            None => found = Some(*place),
            Some(other) => {
                if other != *place {
                    return None;
                }
            }
        }
    }
    found
}
