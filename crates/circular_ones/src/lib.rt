//! Circular orders of the columns of a matrix: round a circle, the columns of each row stand together.
//!
//! On a circle the columns of a row stand together exactly where those outside it do. So each row that holds column 1
//! may be replaced by its complement; then no row holds column 1, and the circle may be cut there (Tucker, 1971).
#![tactic(auto)]

mod cut;
mod laws;
mod turn;

pub use cut::cut_rows;
pub use laws::circular_law;
pub use row_model::NoMemory;
pub use turn::turned;
