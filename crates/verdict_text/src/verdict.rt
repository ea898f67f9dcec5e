// A verdict, and its parts.
ghost use Rattle.std.specs.Prelude.{◌≡◌, ◌≤◌, ◌-◌, [], ◌∷◌, Some, length, slice_get, IsSomeAnd};

use pq_tree::PqTree;
use row_model::{Interval, Intervals, Kind, Lines, Place, Places, Span, Spans};

/// The answer to the question of an instance, with what shows that it is right.
pub struct Verdict {
    /// What a yes has to show.
    pub version: Version,
    /// The kind of the instance.
    pub kind: Kind,
    /// Its numbers of columns.
    pub columns: Columns,
    /// The answer.
    pub part: Part,
}

// By hand, so that a place where a verdict is dropped proves one call and does not take its parts apart.
impl Drop for Verdict {
    fn drop(self) {
        let Verdict {
            version: _version,
            kind: _kind,
            columns: _columns,
            part: _part,
        } = self;
    }
}

/// What a yes has to show.
#[derive(Clone, Copy, Debug, PartialEq, Eq)]
pub enum Version {
    /// Each frontier of the tree of a side is one of its orders.
    One,
    /// Besides, each order of the side is a frontier of its tree.
    Two,
}

/// The number of columns of each side.
#[derive(Clone, Copy, Debug, PartialEq, Eq)]
pub enum Columns {
    /// Of the only side.
    One(u32),
    /// Of side 1 and of side 2.
    Two(u32, u32),
}

/// The answer.
#[derive(Drop)]
pub enum Part {
    /// An order exists.
    Yes(YesPart),
    /// None exists.
    No(NoPart),
}

/// A tree and an order for each side, and what some kinds add.
pub struct YesPart {
    pub(crate) sides: Sides,
}

// By hand, as that of a verdict.
impl Drop for YesPart {
    fn drop(self) {
        let YesPart { sides: _sides } = self;
    }
}

/// A side that has no order, and a cycle that shows it.
#[derive(Drop)]
pub struct NoPart {
    /// The side, 1 or 2.
    pub side: u8,
    /// The lines of the cycle. The reason of each line joins its pair to that of the next line, and that
    /// of the last to the first.
    pub lines: Lines,
}

// One side with what its kind adds, or two sides.
#[derive(Drop)]
pub(crate) enum Sides {
    One(Side, Added),
    Two(Side, Side),
}

// The tree of a side, and one of its orders.
pub(crate) struct Side {
    pub tree: PqTree,
    pub order: Vec<u32>,
}

// By hand, as that of a verdict.
impl Drop for Side {
    fn drop(self) {
        let Side {
            tree: _tree,
            order: _order,
        } = self;
    }
}

// What some kinds add.
pub(crate) struct Added {
    pub intervals: Intervals,
    pub places: Places,
    pub contigs: Spans,
}

// By hand, as that of a verdict.
impl Drop for Added {
    fn drop(self) {
        let Added {
            intervals: _intervals,
            places: _places,
            contigs: _contigs,
        } = self;
    }
}

#[tactic(auto, unfolding(crate::specs::Value::side_value))]
impl YesPart {
    ghost use Rattle.pq_tree.specs.PqTree.{outline};
    ghost use Rattle.verdict_text.specs.Value.{yes_value, side_value};

    /// A yes with one side.
    pub fn one(
        tree: PqTree,
        order: Vec<u32>,
        intervals: Intervals,
        places: Places,
        contigs: Spans,
    ) -> YesPart
        ensures sides { (yes_value result).sides ≡ record { tree = outline tree; order = order.items } ∷ [] }
        ensures intervals { (yes_value result).added.intervals ≡ intervals }
        ensures places { (yes_value result).added.places ≡ places }
        ensures contigs { (yes_value result).added.contigs ≡ contigs }
    {
        let added = Added {
            intervals,
            places,
            contigs,
        };
        YesPart {
            sides: Sides::One(Side { tree, order }, added),
        }
    }

    /// A yes with two sides, whose kind adds nothing.
    pub fn two(tree1: PqTree, order1: Vec<u32>, tree2: PqTree, order2: Vec<u32>) -> YesPart
        ensures sides { (yes_value result).sides ≡ record { tree = outline tree1; order = order1.items } ∷ record { tree = outline tree2; order = order2.items } ∷ [] }
        ensures intervals { (yes_value result).added.intervals ≡ [] }
        ensures places { (yes_value result).added.places ≡ [] }
        ensures contigs { (yes_value result).added.contigs ≡ [] }
    {
        let first = Side {
            tree: tree1,
            order: order1,
        };
        let second = Side {
            tree: tree2,
            order: order2,
        };
        YesPart {
            sides: Sides::Two(first, second),
        }
    }

    /// The number of sides, 1 or 2.
    pub fn sides(&self) -> u8
        ensures { result ≡ length (yes_value self.now).sides }
    {
        match &self.sides {
            Sides::One(_, _) => 1,
            Sides::Two(_, _) => 2,
        }
    }

    /// The tree of a side.
    pub fn tree(&self, side: u8) -> &PqTree
        requires { (1 ≤ side) × (side ≤ length (yes_value self.now).sides) }
        ensures { IsSomeAnd (slice_get (yes_value self.now).sides (side - 1)) (λ s. s.tree ≡ outline result.now) }
    {
        &self.side(side).tree
    }

    /// The order of a side.
    pub fn order(&self, side: u8) -> &[u32]
        requires { (1 ≤ side) × (side ≤ length (yes_value self.now).sides) }
        ensures { IsSomeAnd (slice_get (yes_value self.now).sides (side - 1)) (λ s. s.order ≡ result.now) }
    {
        &self.side(side).order
    }

    fn side(&self, side: u8) -> &Side
        requires { (1 ≤ side) × (side ≤ length (yes_value self.now).sides) }
        ensures { slice_get (yes_value self.now).sides (side - 1) ≡ Some (side_value result.now) }
    {
        match &self.sides {
            Sides::One(only, _) => only,
            Sides::Two(first, _) if side == 1 => first,
            Sides::Two(_, second) => second,
        }
    }

    /// The interval of each vertex, for `Kind::Proper`.
    pub fn intervals(&self) -> &[Interval]
        ensures { result.now ≡ (yes_value self.now).added.intervals }
    {
        match &self.sides {
            Sides::One(_, added) => added.intervals.as_slice(),
            Sides::Two(_, _) => &[],
        }
    }

    /// The place of each clone, for `Kind::Clones`.
    pub fn places(&self) -> &[Place]
        ensures { result.now ≡ (yes_value self.now).added.places }
    {
        match &self.sides {
            Sides::One(_, added) => added.places.as_slice(),
            Sides::Two(_, _) => &[],
        }
    }

    /// The contigs, for `Kind::Clones`.
    pub fn contigs(&self) -> &[Span]
        ensures { result.now ≡ (yes_value self.now).added.contigs }
    {
        match &self.sides {
            Sides::One(_, added) => added.contigs.as_slice(),
            Sides::Two(_, _) => &[],
        }
    }
}
