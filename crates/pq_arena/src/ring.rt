// The ring of the children of a P-node.
ghost use Rattle.std.specs.Prelude.{◌≡◌, cond, eqb};
ghost use Rattle.arena_model.specs.ChildLists.{none};
ghost use Rattle.pq_arena.specs.Wiring.{links, heads, link, head, unringed, fewer, ringed, more, RingBounds, CanEnter};

use crate::node::*;

// Takes `n` out of the ring that it stands in.
pub fn leave_ring(nodes: &mut Vec<Node>, n: u32)
    requires { RingBounds (links nodes.old.items) (heads nodes.old.items) n }
    ensures links { links nodes.new.items ≡ unringed (links nodes.old.items) n }
    ensures heads { heads nodes.new.items ≡ fewer (heads nodes.old.items) (link (links nodes.old.items) n) n }
{
    let link = link_at(nodes, n);
    let head = head_at(nodes, link.parent);
    set_near0(nodes, link.near1, link.near0);
    set_near1(nodes, link.near0, link.near1);
    set_link(nodes, n, NO_LINK);
    let first = first_left(head, link, n);
    set_head(
        nodes,
        link.parent,
        Head {
            first,
            count: head.count - 1,
            ..head
        },
    );
}

// The first child after `n` has left.
pub fn first_left(head: Head, link: Link, n: u32) -> u32
    ensures { result ≡ cond (eqb head.count 1) none (cond (eqb head.first n) link.near0 head.first) }
{
    if head.count == 1 {
        NONE
    } else if head.first == n {
        link.near0
    } else {
        head.first
    }
}

// Puts `n` in front of the children of the P-node `p`.
pub fn enter_ring(nodes: &mut Vec<Node>, p: u32, n: u32)
    requires { CanEnter (links nodes.old.items) (heads nodes.old.items) p n }
    ensures links { links nodes.new.items ≡ ringed (links nodes.old.items) (head (heads nodes.old.items) p) p n }
    ensures heads { heads nodes.new.items ≡ more (heads nodes.old.items) p n }
{
    let head = head_at(nodes, p);
    seat_first(nodes, head, p, n);
    set_head(
        nodes,
        p,
        Head {
            first: n,
            count: head.count + 1,
            ..head
        },
    );
}

// `n` stands in front of the children of the P-node `p`, of which `over` is the head.
fn seat_first(nodes: &mut Vec<Node>, over: Head, p: u32, n: u32)
    requires over { over ≡ head (heads nodes.old.items) p }
    requires can { CanEnter (links nodes.old.items) (heads nodes.old.items) p n }
    ensures links { links nodes.new.items ≡ ringed (links nodes.old.items) over p n }
    ensures heads { heads nodes.new.items ≡ heads nodes.old.items }
{
    if over.count == 0 {
        set_link(
            nodes,
            n,
            Link {
                parent: p,
                near0: n,
                near1: n,
            },
        );
    } else {
        let back = link_at(nodes, over.first).near1;
        set_near0(nodes, back, n);
        set_near1(nodes, over.first, n);
        set_link(
            nodes,
            n,
            Link {
                parent: p,
                near0: over.first,
                near1: back,
            },
        );
    }
}
