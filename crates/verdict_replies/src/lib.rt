//! The reply that tells a verdict on an instance, as `solve` gives it: what the verdict says of the instance, that
//! it is in the grammar, and that its text is short enough to be judged. The same of the text of a core.
//!
//! What a solver found is taken as it is handed in, and printed.
#![tactic(auto)]

mod additions;
mod reply;
mod verdict_laws;
mod verdict_out;

pub use additions::{Additions, added};
pub use reply::Reply;
pub use row_model::NoMemory;
pub use verdict_laws::{core_grammar_law, grammar_law, shown_law};
pub use verdict_out::{no, no_reply, printed};

/// The greatest number of bytes of a verdict that is judged.
pub const MAX_VERDICT_BYTES: u64 = 134_217_728;

/// The greatest number of bytes of the text of a core that is judged.
pub const MAX_CORE_BYTES: u64 = 1_610_612_736;
