// The kinds of instance.

/// What a file is read as, and so which question is asked about it.
#[derive(Clone, Copy, Debug, PartialEq, Eq)]
pub enum Kind {
    /// A matrix of 0 and 1 in full: has it an order of its columns in which the ones of each row are consecutive?
    Matrix,
    /// The same question for rows that are given as lists of columns.
    Rows,
    /// The same question for a table whose cells mark presence.
    Table,
    /// As `Matrix`, with consecutive ones round a circle.
    Circular,
    /// A bipartite graph that may be convex on one side.
    Convex,
    /// A bipartite graph that may be convex on both sides.
    Doubly,
    /// A graph that may be a proper interval graph.
    Proper,
    /// A dissimilarity that may be Robinsonian.
    Robinson,
    /// Clones with their probes: a physical map of the probes.
    Clones,
}
