//! The judge of verdicts, of cores and of unit models: all of `verdict_judge`, and whether a tree has every valid order
//! of the rows of some classes of pairs. The judge itself asks that of the rows (`bound_tree`).
#![tactic(auto)]

mod every_order;

pub use every_order::complete;
pub use row_model::NoMemory;
pub use verdict_judge::{
    Checked, CoreChecked, CoreReason, Instance, Reason, UnitChecked, check, check_core,
    check_counted, check_unit, core_laws, exact_laws, holds_law, solved_laws, tree_holds, true_law,
};
