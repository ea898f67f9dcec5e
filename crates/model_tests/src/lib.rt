//! Tests of the derived rows of each kind, of the places of clones, and of the proper and the unit models of graphs, on
//! small instances that were worked by hand.
#![tactic(auto)]

#[cfg(test)]
mod tests;
