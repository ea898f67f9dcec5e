// What the tree counts of a row.
ghost use Rattle.std.specs.Prelude.{ℕ, List};
ghost use Rattle.row_model.specs.Rows.{IsRow};
ghost use Rattle.pq_tree.specs.Amortised.{nodes_met};
ghost use Rattle.arena_model.specs.Layout.{Layout, IsLayout, IsInUse};
ghost use Rattle.arena_model.specs.NamedTree.{outline_below};
ghost use Rattle.pq_arena.specs.RowNodes.{column_leaves};
ghost use Rattle.bubble_pass.specs.Fair.{AtMost};

/// At or below a node no more nodes meet a row than the tree there counts. A call stands for the clause alone.
pub fn met_law()
    ensures { (f : Layout) (row : List ℕ) (n : ℕ) → IsLayout f → IsInUse f n → IsRow f.columns row →
        AtMost f (column_leaves row) n (nodes_met row (outline_below f n)) }
{}
