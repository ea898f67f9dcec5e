// The run of the children of a Q-node, which know no direction.
ghost use Rattle.std.specs.Prelude.{◌≡◌, ◌<◌, length, set, cond, eqb};
ghost use Rattle.arena_model.specs.ChildLists.{end_parent, none};
ghost use Rattle.pq_arena.specs.Wiring.{links, heads, link, head, redirected, relinked_if, joined, spliced_links, spliced_heads, IsNone, CanSplice, fore, aft, beside_end, extended, extended_ends, new_end, CanExtend};

use crate::node::*;

// The side of the link that showed `from` shows `to`.
pub fn redirect(link: Link, from: u32, to: u32) -> Link
    ensures { result ≡ redirected link from to }
{
    if link.near0 == from {
        Link { near0: to, ..link }
    } else {
        Link { near1: to, ..link }
    }
}

// The side of `x` that showed `from` shows `to`, where `x` is a node.
pub fn relink_if(nodes: &mut Vec<Node>, x: u32, from: u32, to: u32)
    requires { IsNone (length (links nodes.old.items)) x }
    ensures links { links nodes.new.items ≡ relinked_if (links nodes.old.items) x from to }
    ensures heads { heads nodes.new.items ≡ heads nodes.old.items }
{
    if x != NONE {
        let link = link_at(nodes, x);
        set_link(nodes, x, redirect(link, from, to));
    }
}

// `e` stands beside `n`, where `child` stood.
pub fn join(nodes: &mut Vec<Node>, n: u32, child: u32, e: u32, q: u32)
    requires n { IsNone (length (links nodes.old.items)) n }
    requires e { e < length (links nodes.old.items) }
    ensures links { links nodes.new.items ≡ joined (links nodes.old.items) n child e q }
    ensures heads { heads nodes.new.items ≡ heads nodes.old.items }
{
    relink_if(nodes, n, child, e);
    let link = redirect(link_at(nodes, e), NONE, n);
    let parent = if n == NONE { q } else { NONE };
    set_link(nodes, e, Link { parent, ..link });
}

// The children of `child` from `e` to `g` stand between `n` and `far`.
pub fn splice_between(nodes: &mut Vec<Node>, child: u32, n: u32, far: u32, e: u32, g: u32, q: u32)
    requires { CanSplice (links nodes.old.items) (heads nodes.old.items) child n far e g q }
    ensures links { links nodes.new.items ≡ spliced_links (links nodes.old.items) child n far e g q }
    ensures heads { heads nodes.new.items ≡ spliced_heads (heads nodes.old.items) q child n e g }
{
    join(nodes, n, child, e, q);
    join(nodes, far, child, g, q);
    set_link(nodes, child, NO_LINK);
    set_ends(nodes, q, child, n, e, g);
}

// The ends of `q`, if it is a node, once the children from `e` to `g` have come beside `n` in the place of `child`.
fn set_ends(nodes: &mut Vec<Node>, q: u32, child: u32, n: u32, e: u32, g: u32)
    requires { IsNone (length (heads nodes.old.items)) q }
    ensures heads { heads nodes.new.items ≡ spliced_heads (heads nodes.old.items) q child n e g }
    ensures links { links nodes.new.items ≡ links nodes.old.items }
{
    if q != NONE {
        let head = head_at(nodes, q);
        set_head(nodes, q, spliced_head(head, child, n, e, g));
    }
}

// The head of a run after the children from `e` to `g` have come beside `n` in the place of `child`.
fn spliced_head(head: Head, child: u32, n: u32, e: u32, g: u32) -> Head
    ensures { result ≡ record head {
      first = cond (eqb head.first child) (cond (eqb n none) e g) head.first;
      last = cond (eqb head.last child) (cond (eqb head.first child) g (cond (eqb n none) e g)) head.last;
    } }
{
    let outer = if n == NONE { e } else { g };
    let first = if head.first == child {
        outer
    } else {
        head.first
    };
    let last = new_last(head, child, outer, g);
    Head {
        first,
        last,
        ..head
    }
}

// The last child of a run after `child` has left it: `g` where it stood there alone, `outer` where it was the last.
pub fn new_last(head: Head, child: u32, outer: u32, g: u32) -> u32
    ensures { result ≡ cond (eqb head.last child) (cond (eqb head.first child) g outer) head.last }
{
    if head.last == child {
        if head.first == child { g } else { outer }
    } else {
        head.last
    }
}

// The end child at the end `first`: the first where that is 0, else the last.
pub fn fore_of(head: Head, first: usize) -> u32
    ensures { result ≡ fore head first }
{
    if first == 0 { head.first } else { head.last }
}

// The end child at the other end.
pub fn aft_of(head: Head, first: usize) -> u32
    ensures { result ≡ aft head first }
{
    if first == 0 { head.last } else { head.first }
}

// Puts `n` at the end of the run of `q`: the first where `end` is 0, else the last.
pub fn extend_run(nodes: &mut Vec<Node>, q: u32, end: usize, n: u32)
    requires { CanExtend (links nodes.old.items) (heads nodes.old.items) q end n }
    ensures links { links nodes.new.items ≡ extended (links nodes.old.items) (fore (head (heads nodes.old.items) q) end) q n }
    ensures heads { heads nodes.new.items ≡ set (heads nodes.old.items) q (extended_ends (head (heads nodes.old.items) q) end n) }
{
    let head = head_at(nodes, q);
    let former = fore_of(head, end);
    stand_beside(nodes, former, q, n);
    set_link(
        nodes,
        n,
        Link {
            parent: q,
            near0: NONE,
            near1: former,
        },
    );
    set_head(nodes, q, extend_ends(head, end, n));
}

// The former end child of `q`, if there is one, has `n` beside it.
fn stand_beside(nodes: &mut Vec<Node>, former: u32, q: u32, n: u32)
    requires { IsNone (length (links nodes.old.items)) former }
    ensures links { links nodes.new.items ≡ beside_end (links nodes.old.items) former q n }
    ensures heads { heads nodes.new.items ≡ heads nodes.old.items }
{
    if former != NONE {
        let link = redirect(link_at(nodes, former), NONE, n);
        let parent = end_parent_of(q, link.near0, link.near1);
        set_link(nodes, former, Link { parent, ..link });
    }
}

// The parent that a child of `q` with these neighbours holds.
fn end_parent_of(q: u32, near0: u32, near1: u32) -> u32
    ensures { result ≡ end_parent q near0 near1 }
{
    if near0 == NONE || near1 == NONE {
        q
    } else {
        NONE
    }
}

// The ends of a run after `n` has come to its end: the first where `end` is 0, else the last.
fn extend_ends(head: Head, end: usize, n: u32) -> Head
    ensures { result ≡ extended_ends head end n }
{
    let first = end_after(end == 0, head.first, n);
    let last = end_after(end != 0, head.last, n);
    Head {
        first,
        last,
        ..head
    }
}

// The child at an end after `n` has come to this end, or to the other one.
fn end_after(here: bool, former: u32, n: u32) -> u32
    ensures { result ≡ new_end here former n }
{
    if here || former == NONE { n } else { former }
}
