//! Tests of the search for a core: how often a solver is asked, on small matrices.
#![tactic(auto)]

#[cfg(test)]
mod tests;
