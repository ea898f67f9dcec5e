//! What an arena of PQ-tree nodes stands for (Booth and Lueker, 1976): a forest of nodes named by numbers, and the
//! trees in it with and without the numbers. The crate has definitions and their lemmas, and no running code.
#![tactic(auto)]

ghost use Rattle.std.specs.Prelude.{◌≡◌, ◌+◌, ◌*◌};
ghost use Rattle.column_order.specs.declared.TheConstants.{COLUMN_BOUND};

/// The greatest number of nodes of an arena: two for each column, and four.
pub const NODE_BOUND: u32 = 65_540;

/// The value of the constant of this crate. A call stands for the clause alone.
pub fn values_law()
    ensures { NODE_BOUND ≡ 2 * COLUMN_BOUND + 4 }
{}

/// The shape of a node.
#[derive(Clone, Copy, PartialEq, Eq)]
pub enum Shape {
    /// A leaf with its column, numbered from 1.
    Leaf(u32),
    /// A P-node, whose children may be permuted.
    P,
    /// A Q-node, whose children may be reversed.
    Q,
}
