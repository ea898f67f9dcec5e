// What a reader answers.

/// The first thing in a file that its format does not allow.
#[derive(Clone, Copy, Debug, PartialEq, Eq)]
pub struct Refusal {
    /// The cause: one of the numbers in [`code`](crate::code), or that of trees, which their reader adds.
    pub code: u8,
    /// The number of the line, record or entry where it stands, from 1; 0 where no line is named.
    pub line: u32,
}

/// What a reader gives for the bytes of a file: their value, or their first refusal.
#[derive(Debug, Drop)]
pub enum Read<T> {
    /// The value.
    Ok(T),
    /// The first refusal.
    Refused(Refusal),
}
