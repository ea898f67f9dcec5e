//! The consecutive-ones problem, solved: all valid orders of the columns of a matrix, as one tree, or an odd cycle of
//! its incompatibility graph where there is none.
#![tactic(auto)]

mod chosen;
mod growing;
mod session;
mod solver;

pub use chosen::{Answered, Chosen, answer};
pub use growing::{begin, cycle_of_refused, take_next, take_rows, tree_so_far};
pub use row_judge::Judged as Solved;
pub use row_model::NoMemory;
pub use session::{Session, Started, Taken};
pub use solver::solve;
pub use tree_theory::Step;
