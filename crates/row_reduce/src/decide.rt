// Whether templates stand at all labelled nodes.
ghost use Rattle.std.specs.Prelude.{◌≡◌, ℕ, ◌+◌, ◌*◌, ◌≤◌, ◌<◌, true, false, length, sum_by, Some};
ghost use Rattle.template_model.specs.Standing.{IsReady};
ghost use Rattle.bubble_pass.specs.Pass.{node_in};
ghost use Rattle.row_reduce.specs.Decided.{is_top, labelled_at, asking, AreDecided, IsStopped};

use crate::choose::choose;
use crate::template::Template;
use bubble_pass::Work;
use pq_arena::{Arena, NodeId};
use step_count::{Ledger, Steps};

// Chooses a template for each labelled node, children first, and writes it at the node's place among them. The answer
// is false where none stands at some node; the nodes behind that one are not looked at.
pub fn decide<L: Ledger>(
    arena: &Arena,
    work: &Work,
    root: Option<NodeId>,
    chosen: &mut [Template],
    steps: &mut Steps<L>,
) -> bool
    requires ready { (i : ℕ) → i < length work.now.nodes → IsReady arena.now work.now (node_in work.now i) }
    requires room { length work.now.nodes ≤ length chosen.old }
    requires outside { (r : NodeId) → root ≡ Some r → work.now.inside ≡ false }
    ensures decided { result ≡ true → AreDecided arena.now work.now root chosen.new (length work.now.nodes) }
    ensures stopped { result ≡ false → IsStopped arena.now work.now root }
    ensures asking { result ≡ true → steps.new ≤ steps.old + asking arena.now work.now chosen.new (length work.now.nodes) }
    ensures ticks { steps.new ≤ steps.old + sum_by (λ n. 7 * (labelled_at work.now n + 1)) work.now.nodes }
{
    for (i, node) in work.nodes().iter().enumerate() {
        match choose(arena, work, *node, is_top(root, *node), steps) {
            Some(template) => chosen[i] = template,
            None => return false,
        }
    }
    true
}

// Whether the node is the pertinent root, if that is labelled.
fn is_top(root: Option<NodeId>, node: NodeId) -> bool
    ensures { result ≡ is_top root node.index }
{
    match root {
        Some(top) => node.index() == top.index(),
        None => false,
    }
}
