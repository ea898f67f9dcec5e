// A node in the place of another.
ghost use Rattle.std.specs.Prelude.{◌≡◌, length, cond, eqb};
ghost use Rattle.pq_arena.specs.Wiring.{links, heads, link, IsNone, swapped, heads_swapped, CanSwap};

use crate::node::*;
use crate::run::relink_if;

// `new` has the place of `old`, which stands alone then.
pub fn swap_nodes(nodes: &mut Vec<Node>, old: u32, new: u32)
    requires { CanSwap (links nodes.old.items) (heads nodes.old.items) old new }
    ensures links { links nodes.new.items ≡ swapped (links nodes.old.items) old new }
    ensures heads { heads nodes.new.items ≡ heads_swapped (heads nodes.old.items) (link (links nodes.old.items) old).parent old new }
{
    let link = link_at(nodes, old);
    relink_if(nodes, link.near0, old, new);
    relink_if(nodes, link.near1, old, new);
    let place = link_at(nodes, old);
    set_link(nodes, new, place);
    set_link(nodes, old, NO_LINK);
    swap_ends(nodes, link.parent, old, new);
}

// `new` is an end child of `k` where `old` was one, if `k` is a node.
pub fn swap_ends(nodes: &mut Vec<Node>, k: u32, old: u32, new: u32)
    requires { IsNone (length (heads nodes.old.items)) k }
    ensures heads { heads nodes.new.items ≡ heads_swapped (heads nodes.old.items) k old new }
    ensures links { links nodes.new.items ≡ links nodes.old.items }
{
    if k != NONE {
        let head = head_at(nodes, k);
        let first = swap_number(head.first, old, new);
        let last = swap_number(head.last, old, new);
        set_head(
            nodes,
            k,
            Head {
                first,
                last,
                ..head
            },
        );
    }
}

// The number `x`, or `new` where it is `old`.
pub fn swap_number(x: u32, old: u32, new: u32) -> u32
    ensures { result ≡ cond (eqb x old) new x }
{
    if x == old { new } else { x }
}
