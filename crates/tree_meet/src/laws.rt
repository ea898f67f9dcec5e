//! The functions here have no body: their contracts are laws.

ghost use Rattle.tree_meet.specs.Laws.{TreeRowsLaw, TiedRowsLaw, FewRowsLaw, CommonRowsLaw, EitherFirstLaw, UniversalMeetLaw};

/// The frontiers of a proper tree are exactly the valid orders of its rows, and the tree is tied to them. It has
/// fewer than two rows for each column.
pub fn tree_rows_law()
    ensures exact { TreeRowsLaw }
    ensures tied { TiedRowsLaw }
    ensures few { FewRowsLaw }
{}

/// The orders that two trees share are exactly the valid orders of the rows of both. Which of two trees is the first
/// doesn't matter for the canonical tree of these orders. What a tree shares with the universal tree is the tree
/// itself, in its canonical form.
pub fn common_law()
    ensures rows { CommonRowsLaw }
    ensures either { EitherFirstLaw }
    ensures universal { UniversalMeetLaw }
{
    tree_theory::canonical_tree_law();
    tree_theory::canonical_form_law();
}
