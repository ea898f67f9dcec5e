// The lists of the components while they grow, and the left ends of those that are done.
ghost use Rattle.std.specs.Prelude.{◌≡◌, ◌≤◌, ◌<◌, ◌+◌, ◌-◌, ◌*◌, ◌^◌, ℕ, List, length, replicate, slice_set, IsTrue, IfOk};
ghost use Rattle.column_order.specs.Orders.{has};
ghost use Rattle.unit_model.specs.Models.{at_vertex};
ghost use Rattle.unit_model.specs.Drawing.{IsLinkedList, IsNumbered};

use row_model::NoMemory;
use std::alloc::Global;

/// Numbers of the vertices, one for each vertex in turn. The list of a component is kept from its end: that is the
/// first vertex of the component, and each vertex in the list has the one directly before it.
#[derive(Drop)]
pub struct Drawing {
    /// The left end that a vertex would have at place 0 of the list.
    pub levels: Vec<u64>,
    /// The vertex directly before a vertex in the list.
    pub before: Vec<u32>,
    /// The left ends of the vertices of the components that are done.
    pub lefts: Vec<u64>,
}

impl Drawing {
    /// Nothing is known yet of the vertices, of which there are so many.
    pub fn new(alloc: Global, vertices: usize) -> Result<Drawing, NoMemory>
        ensures levels { IfOk result (λ d. d.levels.items ≡ replicate vertices 0) }
        ensures before { IfOk result (λ d. length d.before.items ≡ vertices) }
        ensures lefts { IfOk result (λ d. length d.lefts.items ≡ vertices) }
    {
        Ok(Drawing {
            levels: vec![in alloc; 0; vertices]?,
            before: vec![in alloc; 0; vertices]?,
            lefts: vec![in alloc; 0; vertices]?,
        })
    }

    /// Begins the list of a component with its first vertex.
    pub fn begin(&mut self, v: u32, level: u64)
        requires vertex { (1 ≤ v) × (v ≤ length self.old.levels.items) }
        ensures levels { self.new.levels.items ≡ slice_set self.old.levels.items (v - 1) level }
        ensures before { self.new.before.items ≡ self.old.before.items }
        ensures lefts { self.new.lefts.items ≡ self.old.lefts.items }
    {
        self.levels[v as usize - 1] = level;
    }

    /// Puts v directly before u, one layer after that of u.
    pub fn put_before(&mut self, v: u32, u: u32, step: u64)
        requires v { (1 ≤ v) × (v ≤ length self.old.levels.items) }
        requires u { (1 ≤ u) × (u ≤ length self.old.levels.items) }
        requires before { length self.old.before.items ≡ length self.old.levels.items }
        requires room { at_vertex self.old.levels.items u + step < 2 ^ 64 }
        ensures levels { self.new.levels.items ≡ slice_set self.old.levels.items (v - 1) (at_vertex self.old.levels.items u + step) }
        ensures before { self.new.before.items ≡
            slice_set (slice_set self.old.before.items (v - 1) (at_vertex self.old.before.items u)) (u - 1) v }
        ensures lefts { self.new.lefts.items ≡ self.old.lefts.items }
    {
        let place = v as usize - 1;
        let neighbour = u as usize - 1;
        self.levels[place] = self.levels[neighbour] + step;
        self.before[place] = self.before[neighbour];
        self.before[neighbour] = v;
    }

    /// Gives the vertices of a list, of which there are so many, their left ends, from the last one on.
    pub fn number(&mut self, last: u32, count: usize)
        requires levels { length self.old.levels.items ≡ length self.old.lefts.items }
        requires before { length self.old.before.items ≡ length self.old.lefts.items }
        requires list { (list : List ℕ) × IsLinkedList self.old.before.items (length self.old.lefts.items) last count list }
        requires low { (v : ℕ) → at_vertex self.old.levels.items v + count < 2 ^ 64 }
        ensures levels { self.new.levels.items ≡ self.old.levels.items }
        ensures before { self.new.before.items ≡ self.old.before.items }
        ensures lefts { (list : List ℕ) →
            IsLinkedList self.old.before.items (length self.old.lefts.items) last count list →
            IsNumbered self.old.levels.items self.old.lefts.items self.new.lefts.items list }
    {
        let mut v = last;
        for done in 0..count {
            let at = v as usize - 1;
            self.lefts[at] = self.levels[at] + (count - 1 - done) as u64;
            v = self.before[at];
        }
    }
}
