//! Tests of numbers and words as text, of matrices and orders, and of the shelves of files and the sinks.
#![tactic(auto)]

#[cfg(test)]
mod matrix_tests;
#[cfg(test)]
mod numbers;
#[cfg(test)]
mod real_sink;
#[cfg(test)]
mod shelves;
