//! Tables over the ordered pairs of columns, and closed walks of odd length and odd cycles in the incompatibility graph
//! of some rows, as values: the certificate that no order of the columns keeps every row (McConnell, 2004). Nothing is
//! searched for here, but a walk is folded into a short cycle.
#![tactic(auto)]

mod cycle;
mod fold;
mod folded;
mod laws;
mod marks;
mod numbers;
mod pairs;
mod sorted;
mod walk;

pub use cycle::Cycle;
pub use fold::short_cycle;
pub use folded::is_folded;
pub use laws::{cycle_length_law, short_cycle_law};
pub use marks::Marks;
pub use numbers::PairNumbers;
pub use pairs::{lesser_first, turned, turned_if};
pub use sorted::{is_rising, sorted_columns};
pub use walk::Walk;
