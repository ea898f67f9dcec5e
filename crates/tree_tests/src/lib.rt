//! Tests of PQ-trees and their texts, of their first orders, and of the rows that their nodes ask for.
#![tactic(auto)]

#[cfg(test)]
mod orders;
#[cfg(test)]
mod rows;
#[cfg(test)]
mod same;
#[cfg(test)]
mod trees;
