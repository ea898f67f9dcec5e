// The nodes of an arena: what each holds, and single reads and writes.
ghost use Rattle.std.specs.Prelude.{◌≡◌, ◌<◌, length, set, Some};
ghost use Rattle.pq_arena.specs.Looks.{node_named, index_or_none};
ghost use Rattle.pq_arena.specs.StandsFor.{other_side};
ghost use Rattle.pq_arena.specs.Wiring.{links, heads, link, head, kind_of, spare_head, with_near0, with_near1};

use arena_model::Shape;

// The number that names no node.
pub const NONE: u32 = u32::MAX;

/// A node of an arena. Contracts see its number, which is its place in the vector.
#[derive(Clone, Copy, Default, PartialEq, Eq)]
pub struct NodeId {
    pub(crate) index: u32,
}

impl NodeId {
    /// The number of the node: one of 0 to 2c + 3 in an arena over c columns.
    pub fn index(self) -> u32
        ensures { result ≡ self.index }
    {
        self.index
    }
}

/// What there is to see at a node.
#[derive(Clone, Copy)]
pub struct NodeView {
    /// What kind of node it is.
    pub shape: Shape,
    /// The node above: there for a child of a P-node and an end child of a Q-node, and for no other node.
    pub parent: Option<NodeId>,
    /// The two neighbours. In a ring the first stands behind the node and the second before it; in a run they stand in
    /// either order, and an end child has one.
    pub near: [Option<NodeId>; 2],
    /// The first and the last child of a Q-node; of a P-node the first alone.
    pub ends: [Option<NodeId>; 2],
    /// The number of children of a P-node, 0 for other nodes.
    pub children: u32,
}

// What a node holds of the node above it and of its neighbours.
#[derive(Clone, Copy)]
pub struct Link {
    pub parent: u32,
    pub near0: u32,
    pub near1: u32,
}

// What kind of node it is, or that it is spare.
#[derive(Clone, Copy)]
pub enum NodeKind {
    Spare,
    Column(u32),
    Permuted,
    Directed,
}

// What a node holds of itself and its children.
#[derive(Clone, Copy)]
pub struct Head {
    pub kind: NodeKind,
    pub first: u32,
    pub last: u32,
    pub count: u32,
}

// A node as it is stored.
#[derive(Clone, Copy)]
pub struct Node {
    pub head: Head,
    pub link: Link,
}

// The link of a node without a parent and without neighbours.
pub const NO_LINK: Link = Link {
    parent: NONE,
    near0: NONE,
    near1: NONE,
};

// The node with this number, or none.
pub fn named(x: u32) -> Option<NodeId>
    ensures { result ≡ node_named x }
{
    if x == NONE {
        None
    } else {
        Some(NodeId { index: x })
    }
}

// The number of the node, or that of no node.
pub fn number(x: Option<NodeId>) -> u32
    ensures { result ≡ index_or_none x }
{
    match x {
        Some(x) => x.index,
        None => NONE,
    }
}

// The link of the node `x`.
pub fn link_at(nodes: &Vec<Node>, x: u32) -> Link
    requires { x < length nodes.now.items }
    ensures { result ≡ link (links nodes.now.items) x }
{
    nodes[x as usize].link
}

// The head of the node `x`.
pub fn head_at(nodes: &Vec<Node>, x: u32) -> Head
    requires { x < length nodes.now.items }
    ensures { result ≡ head (heads nodes.now.items) x }
{
    nodes[x as usize].head
}

// The node `x` has the link `to`.
pub fn set_link(nodes: &mut Vec<Node>, x: u32, to: Link)
    requires { x < length nodes.old.items }
    ensures links { links nodes.new.items ≡ set (links nodes.old.items) x to }
    ensures heads { heads nodes.new.items ≡ heads nodes.old.items }
{
    let node = &mut nodes[x as usize];
    node.link = to;
}

// The node `x` has the head `to`.
pub fn set_head(nodes: &mut Vec<Node>, x: u32, to: Head)
    requires { x < length nodes.old.items }
    ensures heads { heads nodes.new.items ≡ set (heads nodes.old.items) x to }
    ensures links { links nodes.new.items ≡ links nodes.old.items }
{
    let node = &mut nodes[x as usize];
    node.head = to;
}

// The node `x` has `to` as its first neighbour.
pub fn set_near0(nodes: &mut Vec<Node>, x: u32, to: u32)
    requires { x < length nodes.old.items }
    ensures links { links nodes.new.items ≡ with_near0 (links nodes.old.items) x to }
    ensures heads { heads nodes.new.items ≡ heads nodes.old.items }
{
    let link = link_at(nodes, x);
    set_link(nodes, x, Link { near0: to, ..link });
}

// The node `x` has `to` as its second neighbour.
pub fn set_near1(nodes: &mut Vec<Node>, x: u32, to: u32)
    requires { x < length nodes.old.items }
    ensures links { links nodes.new.items ≡ with_near1 (links nodes.old.items) x to }
    ensures heads { heads nodes.new.items ≡ heads nodes.old.items }
{
    let link = link_at(nodes, x);
    set_link(nodes, x, Link { near1: to, ..link });
}

// The neighbour that is not `n`.
pub fn other_side(link: Link, n: u32) -> u32
    ensures { result ≡ other_side link n }
{
    if link.near0 == n {
        link.near1
    } else {
        link.near0
    }
}

// How the shape of a node in use is stored.
pub fn kind_of_shape(shape: Shape) -> NodeKind
    ensures { result ≡ kind_of (Some shape) }
{
    match shape {
        Shape::Leaf(column) => NodeKind::Column(column),
        Shape::P => NodeKind::Permuted,
        Shape::Q => NodeKind::Directed,
    }
}

// The head of a spare node before the spare node `next`.
pub fn spare_before(next: u32) -> Head
    ensures { result ≡ spare_head next }
{
    Head {
        kind: NodeKind::Spare,
        first: next,
        last: NONE,
        count: 0,
    }
}
