//! Tests of odd walks and cycles, and of the classes of pairs, on small matrices with a valid order and with none.
#![tactic(auto)]

#[cfg(test)]
mod tests;
