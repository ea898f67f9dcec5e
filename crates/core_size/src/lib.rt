//! A core over c columns has at most 2c - 3 rows.
//!
//! Each row of a core narrows the orders that those before it leave, else the others could do without it. And a tree
//! can be narrowed no more often than its slack says, which is 2c - 3 for the universal tree of c columns: each
//! reduction by a template of Booth and Lueker (1976) that changes more than the turn of nodes lets the slack fall. The
//! functions here have no body: their contracts are the laws.
#![tactic(auto)]

ghost use Rattle.core_size.specs.Laws.{NarrowsLaw, CoreSizeLaw};

use tree_theory::{equivalent_law, reduce_law, template_law, universal_law};

/// A row that is taken lets the slack of the tree fall, or turns nodes of it and no more.
pub fn narrows_law()
    ensures { NarrowsLaw }
{
    template_law();
}

/// A core of a matrix of c columns, two or more, has at most 2c - 3 rows.
pub fn core_size_law()
    ensures { CoreSizeLaw }
{
    narrows_law();
    reduce_law();
    universal_law();
    tree_theory::tied_law();
    equivalent_law();
}
