//! What the commands reply for which a matrix is solved: `solve` on an instance, `unit` on a graph, `extend`, `core`
//! and `list` on a matrix, and `gen`.
//!
//! The derived rows of each side are solved, and what is found is told: a yes with the trees of all orders, or a no
//! with an odd cycle. `unit` tells a unit model in place of a yes, `extend` takes further rows after those of its
//! matrix, `list` lists the first valid orders, and `core` tells rows that are to blame where there is none.
//!
//! `gen` sums up a matrix that a number draws. Each row of it is a run of a hidden order of the columns, so that there
//! is a valid order ([`generated_law`]).
#![tactic(auto)]

ghost use Rattle.std.specs.Prelude.{◌≡◌};
ghost use Rattle.solve_replies.specs.Sessions.{OutcomesLaw};

mod core_rows;
mod distances;
mod draws;
mod extend;
mod judge;
mod list;
mod list_text;
mod nodes;
mod reply;
mod session;
mod sides;
mod summaries;
mod unit;
mod verdicts;

pub use core_rows::blame_reply;
pub use draws::{generate, generated_law};
pub use extend::extension_reply;
pub use judge::Solver;
pub use list::list_reply;
pub use reply::verdict_reply;
pub use row_model::NoMemory;
pub use sides::{solve_matrix, solve_side};
pub use summaries::summary_reply;
pub use unit::unit_reply;
pub use verdicts::verdict_on;

/// The number of refused rows, the first ones, of which `extend` writes an odd cycle.
pub const MAX_EXPLAINED: u32 = 16;

/// The values of the constants.
pub fn values_law()
    ensures { MAX_EXPLAINED ≡ 16 }
{}

/// Each further row has one outcome.
pub fn outcomes_law()
    ensures { OutcomesLaw }
{}
