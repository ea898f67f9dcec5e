// The causes of refusals, by number.

/// Nothing to read, or no column.
pub const EMPTY: u8 = 1;
/// A byte, a word or a cell outside the grammar.
pub const GRAMMAR: u8 = 2;
/// A wrong number of entries or lines.
pub const COUNT: u8 = 3;
/// A number or a name outside its range.
pub const RANGE: u8 = 4;
/// A name that occurs twice.
pub const TWICE: u8 = 5;
/// A loop, a diagonal that is not zero, or a distance that is not symmetric.
pub const SYMMETRY: u8 = 6;
/// Past a limit.
pub const LIMIT: u8 = 7;
/// A record of another number of fields than the header.
pub const CSV: u8 = 8;
/// Bytes that `serde_json` refuses.
pub const JSON: u8 = 9;
/// JSON of another shape.
pub const SHAPE: u8 = 10;
/// Bytes that write no tree.
pub const TREE: u8 = 12;
