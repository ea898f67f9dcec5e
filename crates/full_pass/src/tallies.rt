// The labels of nodes, and what is counted of them, in lists with a place for each node.
ghost use Rattle.std.specs.Prelude.{◌≡◌, ◌≢◌, ℕ, ◌+◌, ◌≤◌, ◌<◌, List, length, true, get_or, None};
ghost use Rattle.full_pass.specs.declared.tallies.Tally.{Tally};
ghost use Rattle.full_pass.specs.Tallies.{full_in, hits_in, first_in, next_in, mark_in, AreStamped, HasPlace};

use pq_arena::NodeId;

// What is counted of one node: `hits` and `first` are of the pass whose stamp is `seen`.
#[derive(Clone, Copy)]
pub struct Tally {
    pub seen: u32,
    // How many children of the node, which is a P-node, are labelled, and the one that was labelled last.
    pub hits: u32,
    pub first: NodeId,
    // The child of the same P-node that was labelled before this one.
    pub next: NodeId,
}

// Whether the node is labelled.
pub fn is_labelled(labels: &[u32], stamp: u32, x: NodeId) -> bool
    requires { x.index < length labels.now }
    ensures { result ≡ full_in labels.now stamp x.index }
{
    labels[x.index() as usize] == stamp
}

// 1 where the neighbour is labelled, else 0.
fn mark(labels: &[u32], stamp: u32, near: Option<NodeId>) -> usize
    requires { HasPlace near (length labels.now) }
    ensures mark { result ≡ mark_in (full_in labels.now stamp) near }
    ensures small { result ≤ 1 }
{
    match near {
        None => 0,
        Some(n) => { if is_labelled(labels, stamp, n) { 1 } else { 0 } }
    }
}

// `x` is labelled.
pub fn fill(labels: &mut [u32], stamp: u32, x: NodeId)
    requires { x.index < length labels.old }
    ensures length { length labels.new ≡ length labels.old }
    ensures here { full_in labels.new stamp x.index ≡ true }
    ensures others { (y : ℕ) → y ≢ x.index → full_in labels.new stamp y ≡ full_in labels.old stamp y }
    ensures ready { (tallies : List Tally) (n : ℕ) → AreStamped labels.old tallies stamp n → AreStamped labels.new tallies stamp n }
{
    labels[x.index() as usize] = stamp;
}

// `x`, a child of a Q-node between these neighbours, is labelled. Says how many of the neighbours are.
pub fn fill_between(labels: &mut [u32], stamp: u32, x: NodeId, near: [Option<NodeId>; 2]) -> usize
    requires x { x.index < length labels.old }
    requires near { HasPlace (get_or near 0 None) (length labels.old) × HasPlace (get_or near 1 None) (length labels.old) }
    ensures pairs { result ≡ mark_in (full_in labels.old stamp) (get_or near 0 None) + mark_in (full_in labels.old stamp) (get_or near 1 None) }
    ensures here { full_in labels.new stamp x.index ≡ true }
    ensures others { (y : ℕ) → y ≢ x.index → full_in labels.new stamp y ≡ full_in labels.old stamp y }
    ensures ready { (tallies : List Tally) (n : ℕ) → AreStamped labels.old tallies stamp n → AreStamped labels.new tallies stamp n }
{
    let pairs = mark(labels, stamp, near[0]) + mark(labels, stamp, near[1]);
    fill(labels, stamp, x);
    pairs
}

// `x` is labelled too among the children of the P-node `p`. Says how many are.
pub fn hit(tallies: &mut [Tally], stamp: u32, p: NodeId, x: NodeId) -> u32
    requires p { p.index < length tallies.old }
    requires x { x.index < length tallies.old }
    requires few { hits_in tallies.old stamp p.index < 4294967295 }
    ensures result { result ≡ hits_in tallies.old stamp p.index + 1 }
    ensures here { hits_in tallies.new stamp p.index ≡ hits_in tallies.old stamp p.index + 1 }
    ensures others { (y : ℕ) → y ≢ p.index → hits_in tallies.new stamp y ≡ hits_in tallies.old stamp y }
    ensures first { first_in tallies.new p.index ≡ x.index }
    ensures firsts { (y : ℕ) → y ≢ p.index → first_in tallies.new y ≡ first_in tallies.old y }
    ensures next { next_in tallies.new x.index ≡ first_in tallies.old p.index }
    ensures nexts { (y : ℕ) → y ≢ x.index → next_in tallies.new y ≡ next_in tallies.old y }
    ensures ready { (labels : List ℕ) (n : ℕ) → AreStamped labels tallies.old stamp n → AreStamped labels tallies.new stamp n }
{
    let before = tallies[p.index() as usize].first;
    let count = hits_at(tallies, stamp, p) + 1;
    set_next(tallies, stamp, x, before);
    set_hits(tallies, stamp, p, count, x);
    count
}

// How many children of the P-node `p` are labelled.
pub fn hits_at(tallies: &[Tally], stamp: u32, p: NodeId) -> u32
    requires { p.index < length tallies.now }
    ensures { result ≡ hits_in tallies.now stamp p.index }
{
    let entry = &tallies[p.index() as usize];
    if entry.seen == stamp { entry.hits } else { 0 }
}

// `before` follows `x` in the chain of labelled children of their P-node.
fn set_next(tallies: &mut [Tally], stamp: u32, x: NodeId, before: NodeId)
    requires { x.index < length tallies.old }
    ensures length { length tallies.new ≡ length tallies.old }
    ensures hits { (y : ℕ) → hits_in tallies.new stamp y ≡ hits_in tallies.old stamp y }
    ensures first { (y : ℕ) → first_in tallies.new y ≡ first_in tallies.old y }
    ensures next { next_in tallies.new x.index ≡ before.index }
    ensures nexts { (y : ℕ) → y ≢ x.index → next_in tallies.new y ≡ next_in tallies.old y }
    ensures ready { (labels : List ℕ) (n : ℕ) → AreStamped labels tallies.old stamp n → AreStamped labels tallies.new stamp n }
{
    let entry = &mut tallies[x.index() as usize];
    entry.next = before;
}

// So many children of the P-node `p` are labelled, and `x` was the last.
fn set_hits(tallies: &mut [Tally], stamp: u32, p: NodeId, count: u32, x: NodeId)
    requires { p.index < length tallies.old }
    ensures length { length tallies.new ≡ length tallies.old }
    ensures here { hits_in tallies.new stamp p.index ≡ count }
    ensures others { (y : ℕ) → y ≢ p.index → hits_in tallies.new stamp y ≡ hits_in tallies.old stamp y }
    ensures first { first_in tallies.new p.index ≡ x.index }
    ensures firsts { (y : ℕ) → y ≢ p.index → first_in tallies.new y ≡ first_in tallies.old y }
    ensures next { (y : ℕ) → next_in tallies.new y ≡ next_in tallies.old y }
    ensures ready { (labels : List ℕ) (n : ℕ) → AreStamped labels tallies.old stamp n → AreStamped labels tallies.new stamp n }
{
    let entry = &mut tallies[p.index() as usize];
    entry.seen = stamp;
    entry.hits = count;
    entry.first = x;
}

// An end child of the Q-node `q` showed it. Where the other end showed it before, it may be full.
pub fn show(tallies: &mut [Tally], stamp: u32, q: NodeId, may_fill: &mut bool)
    ensures hits { (y : ℕ) → hits_in tallies.new stamp y ≡ hits_in tallies.old stamp y }
    ensures first { (y : ℕ) → first_in tallies.new y ≡ first_in tallies.old y }
    ensures next { (y : ℕ) → next_in tallies.new y ≡ next_in tallies.old y }
    ensures ready { (labels : List ℕ) (n : ℕ) → AreStamped labels tallies.old stamp n → AreStamped labels tallies.new stamp n }
{
    let at = q.index() as usize;
    if at < tallies.len() && see(tallies, stamp, at) {
        *may_fill = true;
    }
}

// The Q-node at this place is seen. Says whether it was seen before.
fn see(tallies: &mut [Tally], stamp: u32, at: usize) -> bool
    requires { at < length tallies.old }
    ensures hits { (y : ℕ) → hits_in tallies.new stamp y ≡ hits_in tallies.old stamp y }
    ensures first { (y : ℕ) → first_in tallies.new y ≡ first_in tallies.old y }
    ensures next { (y : ℕ) → next_in tallies.new y ≡ next_in tallies.old y }
    ensures ready { (labels : List ℕ) (n : ℕ) → AreStamped labels tallies.old stamp n → AreStamped labels tallies.new stamp n }
{
    if tallies[at].seen == stamp {
        return true;
    }
    let entry = &mut tallies[at];
    entry.seen = stamp;
    entry.hits = 0;
    false
}
