use graph::Graph;
use graph_order::order;
use spv_base::NoMemory;
use std::alloc::Global;
use std::test::Fail;

/// A diamond of 0, 2, 1 and 3 with an edge twice, and 4, which leads to 0 and to a number that is no place.
fn diamond(alloc: Global) -> Result<Graph, NoMemory> {
    let mut graph = Graph::new(alloc);
    graph.push_row(&[2, 1, 2])?;
    graph.push_row(&[3])?;
    graph.push_row(&[3])?;
    graph.push_row(&[])?;
    graph.push_row(&[0, 9])?;
    Ok(graph)
}

/// From 0 to 1 and 2, from where a walk comes back to 1.
fn turning(alloc: Global) -> Result<Graph, NoMemory> {
    let mut graph = Graph::new(alloc);
    graph.push_row(&[1])?;
    graph.push_row(&[2])?;
    graph.push_row(&[1])?;
    Ok(graph)
}

/// One place, which leads to itself.
fn alone(alloc: Global) -> Result<Graph, NoMemory> {
    let mut graph = Graph::new(alloc);
    graph.push_row(&[0])?;
    Ok(graph)
}

/// Whether the places of a graph have this order.
fn has_order(alloc: Global, graph: &Graph, wanted: &[usize]) -> Result<bool, NoMemory> {
    match order(alloc, graph)? {
        Some(places) => Ok(places.as_slice() == wanted),
        None => Ok(false),
    }
}

/// Whether the places of a graph have no order.
fn has_none(alloc: Global, graph: &Graph) -> Result<bool, NoMemory> {
    Ok(order(alloc, graph)?.is_none())
}

#[test]
fn places_stand_behind_what_leads_to_them(rt: HostRuntime) -> Result<(), Fail> {
    let graph = diamond(rt.alloc())?;
    assert!(rt; has_order(rt.alloc(), &graph, &[4, 0, 2, 1, 3])?);
    Ok(())
}

#[test]
fn a_walk_that_comes_back_leaves_no_order(rt: HostRuntime) -> Result<(), Fail> {
    let graph = turning(rt.alloc())?;
    assert!(rt; has_none(rt.alloc(), &graph)?);
    let graph = alone(rt.alloc())?;
    assert!(rt; has_none(rt.alloc(), &graph)?);
    Ok(())
}
