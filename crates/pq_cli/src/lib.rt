//! The top call of the program `pq`: one command, from its words to its status.
//!
//! A command reads its files from a `Shelf`, writes its reply to one `Sink` and tells of what stood in its way on
//! another, so that what it does is a matter of values: `run` says which files were asked for, and that what was
//! written is a reply to their bytes.
//!
//! Each command is a case of `perform` (`command`). Most go over the file of an instance, and some over that of a text
//! too, which is judged (`over`); `extend` and `meet` take their files themselves, and `gen` has none. A crate below
//! makes the reply of what was read. How a file is read by the form that it should have is in `input`, and what may stand
//! in the way in `stop`. The words are read by `command_input`, and `replies` says what the replies mean.
#![tactic(auto)]

ghost use Rattle.std.specs.Prelude.{◌≡◌};
ghost use Rattle.verdict_replies.specs.declared.TheConstants.{MAX_CORE_BYTES, MAX_VERDICT_BYTES};
ghost use Rattle.solve_replies.specs.declared.TheConstants.{MAX_EXPLAINED};
ghost use Rattle.row_model.specs.declared.code.TheConstants.{TREE};

mod command;
mod extend;
mod input;
mod making;
mod meet;
mod over;
mod real;
mod replies;
mod report;
mod stop;
mod top;

pub use commands::{MAX_CORE_BYTES, MAX_VERDICT_BYTES, tree_file_law};
pub use real::{own_law, run_real, told_files_law, told_law};
pub use replies::check::{check_law, solved_law};
pub use replies::core_rows::{core_judgement_law, core_law};
pub use replies::extend::extend_law;
pub use replies::list::list_law;
pub use replies::meet::meet_law;
pub use replies::promise::promise_law;
pub use replies::solve::{model_law, reply_law};
pub use replies::unit::unit_reply_law;
pub use replies::unit_check::unit_check_law;
pub use row_model::NoMemory;
pub use solve_replies::{MAX_EXPLAINED, generate, generated_law};
pub use stop::{Failure, Stop};
pub use top::{decide, run, run_counted};

/// The values of the constants.
pub fn values_law()
    ensures verdict_bytes { MAX_VERDICT_BYTES ≡ 134217728 }
    ensures core_bytes { MAX_CORE_BYTES ≡ 1610612736 }
    ensures explained { MAX_EXPLAINED ≡ 16 }
    ensures tree_code { TREE ≡ 12 }
{}
