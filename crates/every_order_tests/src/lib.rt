//! Two ways to tell whether a tree has every valid order of some rows among its frontiers: by the classes of pairs
//! (`complete`) and along the leaves (`is_complete`). On small matrices they are compared with each other, and the
//! first with a plain list of all orders.
//!
//! The matrices are those of at most four columns and four rows, and the trees are all trees over their columns. What
//! both say depends on the set of the rows alone, so the order of the rows is left out.
#![tactic(auto)]

#[cfg(test)]
mod tests;
