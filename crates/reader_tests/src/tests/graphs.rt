// Graphs, bipartite graphs and distances, made by calls.
ghost use Rattle.std.specs.Prelude.{◌≡◌};

use crate::tests::same::assert_same;
use graph_read::{Bigraph, Distances, Graph};
use row_model::NoMemory;
use std::process::Abort;

fn add_edges(graph: &mut Graph) -> Result<(), NoMemory>
    requires { graph.old.vertices ≡ 4 }
{
    graph.add_edge(2, 4)?;
    graph.add_edge(1, 2)?;
    graph.add_edge(2, 1)
}

fn assert_edges(rt: &impl Abort, graph: &Graph) {
    assert_eq!(rt; graph.vertices(), 4);
    assert_same(rt, graph.neighbours(2), &[1, 4], "neighbours of 2");
    let edges = [
        graph.edge(4, 2),
        graph.edge(1, 4),
        graph.neighbours(3).is_empty(),
    ];
    assert_same(
        rt,
        edges,
        [true, false, true],
        "from 4 to 2, from 1 to 4, no neighbour of 3",
    );
}

#[test]
fn an_edge_goes_both_ways_and_counts_once(rt: HostRuntime) -> Result<(), NoMemory> {
    let mut graph = Graph::new(rt.alloc(), 4)?;
    add_edges(&mut graph)?;
    assert_edges(&rt, &graph);
    Ok(())
}

fn add_edges_to_the_right(graph: &mut Bigraph) -> Result<(), NoMemory>
    requires { (graph.old.left ≡ 2) × (graph.old.right ≡ 3) }
{
    graph.add_edge(2, 3)?;
    graph.add_edge(2, 1)?;
    graph.add_edge(2, 3)
}

fn assert_edges_to_the_right(rt: &impl Abort, graph: &Bigraph) {
    assert_eq!(rt; (graph.left(), graph.right()), (2, 3));
    assert_same(rt, graph.neighbours(2), &[1, 3], "neighbours of 2");
    let edges = [graph.edge(2, 3), graph.edge(1, 3)];
    assert_same(rt, edges, [true, false], "from 2 and from 1 to 3");
}

#[test]
fn edges_go_from_the_left_side_to_the_right(rt: HostRuntime) -> Result<(), NoMemory> {
    let mut graph = Bigraph::new(rt.alloc(), 2, 3)?;
    add_edges_to_the_right(&mut graph)?;
    assert_edges_to_the_right(&rt, &graph);
    Ok(())
}

#[test]
fn distances_are_kept_row_by_row(rt: HostRuntime) -> Result<(), NoMemory> {
    let distances = Distances::new(rt.alloc(), 2, &[0, 5, 5, 0])?;
    let found = (distances.items(), distances.at(1, 2), distances.at(2, 2));
    assert_same(&rt, found, (2, 5, 0), "items, from 1 to 2, from 2 to 2");
    Ok(())
}
