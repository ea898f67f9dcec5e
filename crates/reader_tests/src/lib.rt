//! Tests of the readers of matrices and graphs, and of the lines, words and numbers that they are read by.
#![tactic(auto)]

#[cfg(test)]
mod tests;
