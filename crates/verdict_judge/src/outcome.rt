// What the judge says of a verdict.

/// What comes of judging a verdict.
#[derive(Clone, Copy, Debug, PartialEq, Eq)]
pub enum Checked {
    /// Each test is passed.
    Valid,
    /// The first test that fails.
    Invalid(Reason),
}

/// The test that a verdict fails. Sides, rows and lines count from 1.
#[derive(Clone, Copy, Debug, PartialEq, Eq)]
pub enum Reason {
    /// The verdict's kind is not that of the instance.
    Kind,
    /// Its columns are not those of the instance.
    Columns,
    /// The order of this side is no textbook order of the side.
    Order(u8),
    /// Of the tree of this side some frontier does not keep this row of the derived matrix.
    Tree(u8, u32),
    /// The tree of this side is not tied to the rows of the derived matrix.
    Complete(u8),
    /// The intervals do not fit the graph.
    Intervals,
    /// The places are not those of the clones in the order.
    Places,
    /// The contigs are not those of the clones in the order.
    Contigs,
    /// The cycle has this number of lines, which is even or below 3.
    Length(u32),
    /// This line has a column out of range, or one column twice.
    Pair(u32),
    /// The pair of this line stands on an earlier line.
    Repeat(u32),
    /// The reason of this line does not join its pair to the next, the last line's to the first.
    Join(u32),
}
