// The nodes of a tree, by their kinds.
ghost use Rattle.std.specs.Prelude.{◌≡◌, ◌+◌, ◌<◌, ◌^◌, map};
ghost use Rattle.pq_tree.specs.Proper.{outline_of, forest};
ghost use Rattle.solve_replies.specs.Summaries.{inner_sum, inner_sum_of};

use pq_tree::Tree;

/// How many nodes of each kind a tree has.
#[derive(Clone, Copy, Drop)]
pub struct Nodes {
    /// The P-nodes.
    pub p: u32,
    /// The Q-nodes.
    pub q: u32,
}

/// Adds the nodes of a tree.
#[cycle(nodes)]
pub fn count_nodes(tree: &Tree, nodes: &mut Nodes)
    requires p { nodes.old.p + inner_sum 1 0 (outline_of tree.now) < 2 ^ 32 }
    requires q { nodes.old.q + inner_sum 0 1 (outline_of tree.now) < 2 ^ 32 }
    ensures p { nodes.new.p ≡ nodes.old.p + inner_sum 1 0 (outline_of tree.now) }
    ensures q { nodes.new.q ≡ nodes.old.q + inner_sum 0 1 (outline_of tree.now) }
{
    match tree {
        Tree::Leaf(_) => {}
        Tree::P(children) => {
            nodes.p += 1;
            count_all(children, nodes);
        }
        Tree::Q(children) => {
            nodes.q += 1;
            count_all(children, nodes);
        }
    }
}

/// Adds the nodes of trees.
#[cycle(nodes)]
fn count_all(trees: &[Tree], nodes: &mut Nodes)
    requires p { nodes.old.p + inner_sum_of 1 0 (forest (map outline_of trees.now)) < 2 ^ 32 }
    requires q { nodes.old.q + inner_sum_of 0 1 (forest (map outline_of trees.now)) < 2 ^ 32 }
    ensures p { nodes.new.p ≡ nodes.old.p + inner_sum_of 1 0 (forest (map outline_of trees.now)) }
    ensures q { nodes.new.q ≡ nodes.old.q + inner_sum_of 0 1 (forest (map outline_of trees.now)) }
{
    for tree in trees {
        count_nodes(tree, nodes);
    }
}
