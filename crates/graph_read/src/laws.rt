// What files give, in the words of graphs and of tables. A call stands for its clauses.
ghost use Rattle.graph_read.specs.FileLaws.{BigraphLaw, GraphLaw, DistancesLaw};
ghost use Rattle.graph_read.specs.RefusalLaws.{BigraphRefusals, GraphRefusals, DistancesRefusals};

/// What the readers give, in the words of graphs and of tables.
///
/// A file is read as a bipartite graph by [`read_bigraph`](crate::read_bigraph), or as a graph by
/// [`read_graph`](crate::read_graph), exactly where it writes that graph within the limits: its first line gives the
/// sizes, each later line is exactly an edge, and x has an edge to y exactly where a later line is the two numbers x
/// and y; in a graph an edge is named either way round, and no vertex is its own neighbour.
///
/// A file is read as a table of distances by [`read_distances`](crate::read_distances) exactly where it writes that
/// table within the limit: its first line gives the number of items, and each later line is exactly the numbers of a
/// row.
pub fn edge_laws()
    ensures bigraph { BigraphLaw }
    ensures graph { GraphLaw }
    ensures distances { DistancesLaw }
{}

/// What [`read_bigraph`](crate::read_bigraph), [`read_graph`](crate::read_graph) and
/// [`read_distances`](crate::read_distances) refuse, in this order: a file past the limit of its length, a file without
/// a line, the first line, and then the first later line that is not an edge or not the next row; last come rows that
/// are missing. Where nothing is refused the file is read as the graph of the edges that its lines name, or as the
/// table of the rows that they write.
pub fn refusal_laws()
    ensures bigraph { BigraphRefusals }
    ensures graph { GraphRefusals }
    ensures distances { DistancesRefusals }
{}
