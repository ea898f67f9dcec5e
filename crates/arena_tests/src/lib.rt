//! Tests of the arena, of the bubble pass and of the full pass over trees that are built by calls: random ones, against
//! a plain definition of what a bubble pass has to find, large ones, and small ones that were worked by hand. The crate
//! has no running code.
#![tactic(auto)]

#[cfg(test)]
mod tests;
