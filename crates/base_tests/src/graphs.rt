use graph::{Graph, NoMemory, Sieve, distinct, reach, reach_all, reversed, the_one};
use std::alloc::Global;
use std::test::Fail;

/// A diamond, 0 to 3, with a loop from 3 back to 1; and 4 and 5, which nothing else leads to. 5 names a place past
/// the end.
fn diamond(alloc: Global) -> Result<Graph, NoMemory> {
    let mut graph = Graph::new(alloc);
    graph.push_row(&[1, 2, 1])?;
    graph.push_row(&[3])?;
    graph.push_row(&[3, 3])?;
    graph.push_row(&[1])?;
    graph.push_row(&[4, 0])?;
    graph.push_row(&[9])?;
    Ok(graph)
}

/// Whether walks from some places come to the places that are marked.
fn reaches(
    alloc: Global,
    from: &[usize],
    through: &[bool],
    marks: &[bool],
) -> Result<bool, NoMemory> {
    let graph = diamond(alloc)?;
    Ok(reach(alloc, &graph, from, through)?.as_slice() == marks)
}

#[test]
fn walks_stop_where_they_may_not_pass(rt: HostRuntime) -> Result<(), Fail> {
    let alloc = rt.alloc();
    let marks = [true, false, false, false, true, false];
    assert!(rt; reaches(alloc, &[4], &[false, true, true, true, true], &marks)?);
    let marks = [false, true, false, true, false, true];
    assert!(rt;
        reaches(
            alloc,
            &[1, 5],
            &[true, true, true, true, true, true],
            &marks
        )?
    );
    let marks = [false, false, true, false, false, false];
    assert!(rt; reaches(alloc, &[2], &[], &marks)?);
    let graph = diamond(alloc)?;
    let marks = [true, true, true, true, false, false];
    assert!(rt; reach_all(alloc, &graph, &[0, 7])?.as_slice() == marks.as_slice());
    Ok(())
}

fn are_turned(turned: &Graph) -> bool {
    turned.count() == 6
        && turned.row(0) == [4].as_slice()
        && turned.row(1) == [0, 3].as_slice()
        && turned.row(3) == [1, 2].as_slice()
        && turned.row(4) == [4].as_slice()
        && turned.row(9) == [].as_slice()
}

#[test]
fn edges_turn_round(rt: HostRuntime) -> Result<(), Fail> {
    let graph = diamond(rt.alloc())?;
    assert!(rt; are_turned(&reversed(rt.alloc(), &graph)?));
    Ok(())
}

fn are_sifted(single: &Graph) -> bool {
    single.row(0) == [1, 2].as_slice()
        && single.row(2) == [3].as_slice()
        && single.row(5) == [].as_slice()
}

fn sifts(
    alloc: Global,
    sieve: &mut Sieve,
    row: &[usize],
    left: &[usize],
) -> Result<bool, NoMemory> {
    Ok(sieve.distinct(alloc, row)?.as_slice() == left)
}

#[test]
fn rows_are_sifted(rt: HostRuntime) -> Result<(), Fail> {
    let graph = diamond(rt.alloc())?;
    assert!(rt; are_sifted(&distinct(rt.alloc(), &graph)?));
    let mut sieve = Sieve::new(rt.alloc(), 4)?;
    assert!(rt; sifts(rt.alloc(), &mut sieve, &[2, 0, 2, 4, 0], &[2, 0])?);
    assert!(rt; sifts(rt.alloc(), &mut sieve, &[0, 3, 0], &[0, 3])?);
    Ok(())
}

#[test]
fn one_place_is_left(rt: HostRuntime) {
    let marks = [true, false, false, true];
    assert!(rt;
        the_one(&[0, 1, 3, 1], &marks) == Some(1)
            && the_one(&[1, 2], &marks).is_none()
            && the_one(&[0, 3], &marks).is_none()
            && the_one(&[3, 8], &marks) == Some(8)
    );
}
