// What a verdict of yes adds for some kinds, and lists of what is small enough to copy.
ghost use Rattle.std.specs.Prelude.{◌≡◌, [], ◌∷◌, ◌++◌, IfOk, OnOk, OnErr};

use crate::NoMemory;
use crate::graph::Line;
use std::alloc::Global;
use std::marker::Model;

/// A closed interval of whole numbers.
#[derive(Clone, Copy, Debug, PartialEq, Eq)]
pub struct Interval {
    /// The left end.
    pub left: u64,
    /// The right end.
    pub right: u64,
}

/// Where a clone stands in an order of the probes.
#[derive(Clone, Copy, Debug, PartialEq, Eq)]
pub enum Place {
    /// It has no probe, and so no place.
    Nowhere,
    /// At consecutive positions, which count from 1.
    At {
        /// The first position.
        first: u32,
        /// The last position.
        last: u32,
    },
}

/// Consecutive positions of an order, which count from 1.
#[derive(Clone, Copy, Debug, PartialEq, Eq)]
pub struct Span {
    /// The first position.
    pub first: u32,
    /// The last position.
    pub last: u32,
}

/// A list, which takes no memory while it is empty.
#[derive(Drop)]
pub struct ListOf<T> {
    items: Vec<T>,
}

/// Lines one after another, as those of a walk or of a cycle.
pub type Lines = ListOf<Line>;
/// Intervals, as one for each vertex of a proper interval graph.
pub type Intervals = ListOf<Interval>;
/// Places, as one for each clone.
pub type Places = ListOf<Place>;
/// Spans, as one for each contig.
pub type Spans = ListOf<Span>;

impl<T> Model for ListOf<T> {
    ghost use Rattle.std.specs.Prelude.{List};

    ghost Value = { List T };

    ghost view = { λ list. list.items.items };
}

impl<T: Copy> ListOf<T> {
    /// The empty list, which takes no memory.
    pub fn new(alloc: Global) -> Self
        ensures { result ≡ [] }
    {
        ListOf {
            items: Vec::new(alloc),
        }
    }

    /// The list of these items, which takes over their memory.
    pub fn from_vec(items: Vec<T>) -> Self
        ensures { result ≡ items.items }
    {
        ListOf { items }
    }

    /// The empty list, with room for `count` items.
    ///
    /// # Errors
    ///
    /// `NoMemory` where there is no memory for them.
    pub fn with_capacity(alloc: Global, count: usize) -> Result<Self, NoMemory>
        ensures { IfOk result (λ list. list ≡ []) }
    {
        Ok(ListOf {
            items: Vec::with_capacity(alloc, count)?,
        })
    }

    /// Adds a last item. On an error the list is as before.
    ///
    /// # Errors
    ///
    /// `NoMemory` where there is no memory for one more.
    pub fn push(&mut self, item: T) -> Result<(), NoMemory>
        ensures ok { OnOk result (self.new ≡ self.old ++ item ∷ []) }
        ensures err { OnErr result (self.new ≡ self.old) }
    {
        self.items.push(item)?;
        Ok(())
    }

    /// The items in their order.
    pub fn as_slice(&self) -> &[T]
        ensures { result.now ≡ self.now }
    {
        &self.items
    }
}
