//! The commands of the program `pq`, as far as they need no solver of their own: what the words of a command line ask
//! for and how the bytes of a file are read (`command_input`), the verdict that `solve` tells (`verdict_replies`), and
//! the replies of the commands that judge and of `meet`.
//!
//! `check` on a verdict, `check-core` on a core of a matrix and `check-unit` on a unit model of a graph reply one line,
//! `valid`, or `invalid` with the first that keeps the bytes of the second file from it. They take the judges of
//! `verdict_judge`. A verdict that `solve` tells passes each test ([`passed_law`]).
//!
//! The orders that two trees of `meet` stand for are found by any solver that keeps to the trait `Judge` of
//! `row_judge`.
#![tactic(auto)]

ghost use Rattle.std.specs.Prelude.{◌≡◌};
ghost use Rattle.row_model.specs.declared.code.TheConstants.{TREE};
ghost use Rattle.verdict_replies.specs.declared.TheConstants.{MAX_VERDICT_BYTES, MAX_CORE_BYTES};

mod check_core;
mod check_unit;
mod check_verdict;
mod core_judgement;
mod finding;
mod judgement;
mod line_reply;
mod meeting;
mod verdict_laws;

pub use check_core::core_judgement_reply;
pub use check_unit::finding_reply;
pub use check_verdict::judgement_reply;
pub use command_input::{
    Task, graph_law, instance_in, instance_law, long_law, task_of, tree_file_law, tree_in,
};
pub use core_judgement::CoreJudgement;
pub use finding::Finding;
pub use judgement::Judgement;
pub use meeting::meeting_reply;
pub use row_model::NoMemory;
pub use verdict_laws::passed_law;
pub use verdict_replies::{
    Additions, MAX_CORE_BYTES, MAX_VERDICT_BYTES, Reply, added, core_grammar_law, grammar_law, no,
    no_reply, printed, shown_law,
};

/// The values of the constants.
pub fn values_law()
    ensures verdict_bytes { MAX_VERDICT_BYTES ≡ 134217728 }
    ensures core_bytes { MAX_CORE_BYTES ≡ 1610612736 }
    ensures tree_code { TREE ≡ 12 }
{}
