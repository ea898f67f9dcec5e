//! The gaps between neighbouring columns of an order that is valid for some rows, and the columns for
//! which a row leaves them open.
//!
//! A row that has the columns on both sides of a gap and lacks a third column joins two pairs of the incompatibility
//! graph of the rows (McConnell, 2004). Such steps from neighbour to neighbour lead to all that is joined in these
//! rows, so a search along an order need look at no others.
#![tactic(auto)]

mod gap;
mod laws;
mod table;

pub use laws::gap_law;
pub use row_model::NoMemory;
pub use table::OpenGaps;
