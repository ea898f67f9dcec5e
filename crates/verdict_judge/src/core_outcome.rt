// What the judge says of the text of a core.

/// What comes of judging the text of a core.
#[derive(Clone, Copy, Debug, PartialEq, Eq)]
pub enum CoreChecked {
    /// Each test is passed.
    Valid,
    /// The first test that fails.
    Invalid(CoreReason),
}

/// The test that the text of a core fails. Lines count from 1.
#[derive(Clone, Copy, Debug, PartialEq, Eq)]
pub enum CoreReason {
    /// The kind is not that of the matrix.
    Kind,
    /// The number of columns is not that of the matrix.
    Columns,
    /// The rows are not rows of the matrix in strictly ascending order.
    Rows,
    /// The order of this row is no order of the columns that keeps the other rows of the core.
    Order(u32),
    /// The cycle has this number of lines, which is even or below 3.
    Length(u32),
    /// This line has a column out of range, or one column twice.
    Pair(u32),
    /// The pair of this line stands on an earlier line.
    Repeat(u32),
    /// The reason of this line is no flip and no row of the core, or does not join its pair to the next, the
    /// last line's to the first.
    Join(u32),
}
