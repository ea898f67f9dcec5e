// The reducer that owns its tree.
ghost use Rattle.std.specs.Prelude.{◌≡◌, ◌≤◌, false, [], IfOk};
ghost use Rattle.pq_tree.specs.Proper.{outline_of, universal, IsProper};
ghost use Rattle.pq_tree.specs.Propositions.{IsProper-prop};
ghost use Rattle.tree_theory.specs.Tied.{IsTied};

use crate::search::{Found, reduce_tree};
use pq_tree::{PqTree, Tree};
use row_model::{COLUMN_BOUND, Matrix, NoMemory};
use std::alloc::Global;
use step_count::{Ledger, Steps};
use tree_theory::{Reducer, Step};

/// A reducer whose tree owns its nodes. A row costs at most a few walks over the tree, which no clause says: the
/// pertinent root, the smallest node that holds the row, is found in one walk; its new subtree is made of copies, and
/// takes its place when all memory has been had.
#[derive(Drop)]
pub struct PlainReducer {
    alloc: Global,
    column_count: u32,
    tree: Tree,
    pub ghost proper: { IsProper column_count (outline_of tree) } by { IsProper-prop column_count (outline_of tree) },
}

impl PlainReducer {
    ghost use Rattle.pq_plain.specs.Plain.{plain_columns, plain_outline};

    /// A reducer with the universal tree, which is tied to no rows. It allocates by `alloc`.
    ///
    /// # Errors
    ///
    /// `NoMemory`.
    pub fn new(alloc: Global, columns: u32) -> Result<Self, NoMemory>
        requires { (1 ≤ columns) × (columns ≤ COLUMN_BOUND) }
        ensures columns { IfOk result (λ r. plain_columns r ≡ columns) }
        ensures tree { IfOk result (λ r. plain_outline r ≡ universal columns) }
        ensures tied { IfOk result (λ r. IsTied columns [] (plain_outline r)) }
    {
        let tree = PqTree::universal(alloc, columns)?.into_tree();
        Ok(PlainReducer {
            alloc,
            column_count: columns,
            tree,
        })
    }
}

impl Reducer for PlainReducer {
    ghost use Rattle.pq_plain.specs.Plain.{plain_columns, plain_outline};

    ghost outline = { plain_outline };

    ghost columns = { plain_columns };

    ghost frugal = { false };

    fn reduce<L: Ledger>(
        &mut self,
        m: &Matrix,
        k: u32,
        _steps: &mut Steps<L>,
    ) -> Result<Step, NoMemory> {
        let row = m.row(k);
        if row.is_empty() {
            return Ok(Step::Taken);
        }
        match reduce_tree(self.alloc, row, &mut self.tree) {
            Err(error) => Err(error),
            Ok(Found::Root(step)) => Ok(step),
            Ok(Found::Columns(_)) => unreachable!(),
        }
    }

    fn tree(&self, alloc: Global) -> Result<PqTree, NoMemory> {
        PqTree::canonical_of(alloc, self.column_count, &self.tree)
    }
}
