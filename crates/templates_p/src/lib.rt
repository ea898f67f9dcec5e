//! The templates of Booth and Lueker (1976) at leaves and at P-nodes, in place.
//!
//! For L1 and for P1 to P6 a call tells whether the template fits at a node, by the labels of the children, and a call
//! applies it. The empty children of a node are not walked over, so the work is in the number of its labelled children.
//! `apply_p2_to` and `divide` take the full children of a node without labels.
#![tactic(auto)]

mod apply;
mod fits;
mod group;
mod line;
mod merge;
mod moves;
mod parted;
mod sight;
mod two_parts;

pub use apply::{
    apply_l1, apply_p1, apply_p2, apply_p2_to, apply_p3, apply_p4, apply_p5, apply_p6,
};
pub use fits::{fits_l1, fits_p1, fits_p2, fits_p3, fits_p4, fits_p5, fits_p6};
pub use two_parts::divide;
