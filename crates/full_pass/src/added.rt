// What the labelling of a node did, and what follows.
ghost use Rattle.std.specs.Prelude.{◌≡◌, ℕ, List, Bool};
ghost use Rattle.arena_model.specs.Layout.{Layout};
ghost use Rattle.full_pass.specs.Passing.{judged_as, IsAdded, WasAdded, IsNext, AreFewer};

use crate::settled::Settled;
use pq_arena::NodeId;

// What a node did that was labelled.
#[derive(Clone, Copy)]
pub enum Added {
    // It is the root, and was not labelled.
    Top,
    // It is a child of a Q-node, beside so many labelled ones.
    Run(usize),
    // It is the first labelled child of a P-node.
    First,
    // It is a further child of this P-node, and others are not labelled.
    More(NodeId),
    // It is the last child of this P-node.
    Whole(NodeId),
}

// Where a pass goes on.
#[derive(Clone, Copy)]
pub enum Next {
    // No node got full. The answer if no other part is left, and none where the root is full.
    Ended(Option<Settled>),
    // This node got full.
    Above(NodeId),
}

// What a child of the P-node `p` did, of whose children so many are labelled.
pub fn judged(p: NodeId, hits: u32, children: u32) -> Added
    ensures { result ≡ judged_as p hits children }
{
    if hits == 1 {
        Added::First
    } else if hits == children {
        Added::Whole(p)
    } else {
        Added::More(p)
    }
}

// What follows where a node was labelled, with `parts` for the number of parts.
pub fn after(added: Added, parts: &mut usize) -> Next
    requires { WasAdded parts.old added }
    ensures next { (f : Layout) (row : List ℕ) (l : ℕ → Bool) (h : ℕ → ℕ) (waiting : List ℕ) →
        IsAdded f row l h waiting parts.old added → IsNext f row l h waiting parts.new result }
    ensures fewer { AreFewer result parts.old parts.new }
{
    match added {
        Added::Top => Next::Ended(None),
        Added::Run(pairs) => {
            *parts -= pairs;
            Next::Ended(Some(Settled::Kept))
        }
        Added::First => Next::Ended(Some(Settled::Kept)),
        Added::More(p) => {
            *parts -= 1;
            Next::Ended(Some(Settled::Group(p)))
        }
        Added::Whole(p) => {
            *parts -= 1;
            Next::Above(p)
        }
    }
}
