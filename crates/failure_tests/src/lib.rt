//! Runs of the top call over devices in memory that fail, that give and take few bytes at a time, and that never fail,
//! over files at their limits, and over the shelf of the system at files that are played. The crate has no running code.
#![tactic(auto)]

#[cfg(test)]
mod tests;
