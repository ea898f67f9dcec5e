//! Tests of verdicts: their texts, and what the judge says of them on small instances that were worked by hand.
#![tactic(auto)]

#[cfg(test)]
mod tests;
