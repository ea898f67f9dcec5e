//! The templates Q1, Q2 and Q3 of Booth and Lueker (1976), in place: where each fits at a Q-node of an arena, and what
//! it makes there. Each is judged by the labels of the labelled children alone, and none walks over empty children.
#![tactic(auto)]

mod q1;
mod q2;
mod q3;
mod splice;
mod stretch;
mod walk;

pub use q1::{apply_q1, fits_q1};
pub use q2::{apply_q2, fits_q2};
pub use q3::{apply_q3, fits_q3};
