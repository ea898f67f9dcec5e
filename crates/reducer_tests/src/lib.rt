//! Both reducers on the same rows: after each row both took it or both refused it, and their canonical trees are the
//! same. A refused row leaves the trees as they were, and the rows after it go on.
//!
//! The rows are those of every matrix of at most four columns and four rows, those of matrices of up to twelve columns
//! that are drawn from a number, and some that are worked out by hand. A few of these last go to the reducer that owns
//! its tree alone.
#![tactic(auto)]

#[cfg(test)]
mod tests;
