//! Runs of the top call over files and sinks in memory: a few of each command, and what sinks in memory and a library
//! call alone can show. The crate has no running code.
#![tactic(auto)]

#[cfg(test)]
mod tests;
