#![tactic(auto, unfolding(crate::specs::Seen::seen, crate::specs::Seen::begun_of, crate::specs::Reading::step))]
// Trees from their texts, byte by byte.
ghost use Rattle.std.specs.Prelude.{◌≡◌, ◌≤◌, ◌<◌, ◌+◌, ℕ, List, option_map, option_and_then, map, length, IfOk, false, slice_index_or};
ghost use Rattle.column_order.specs.Orders.{has};
ghost use Rattle.pq_tree.specs.Outline.{Outline};
ghost use Rattle.pq_tree.specs.Proper.{outline_of, IsProper};
ghost use Rattle.pq_tree.specs.Text.{tree_text};
ghost use Rattle.pq_tree.specs.Reading.{settled, digit_at, opened_at, spaced_after, closed, node_of, least_count, step, finished, covers, tree_of};
ghost use Rattle.pq_tree.specs.Seen.{seen, IsKept, Moves};

use crate::{NoMemory, Tree};
use column_order::COLUMN_BOUND;
use std::alloc::Global;
use std::mem;

/// The tree over 1 to c of which the bytes are the text; none where they are the text of no tree over 1 to c.
pub fn tree_of(alloc: Global, bytes: &[u8], c: u32) -> Result<Option<Tree>, NoMemory>
    requires { c ≤ COLUMN_BOUND }
    ensures { IfOk result (λ o. option_map outline_of o ≡ tree_of c bytes.now) }
{
    let mut parser = Parser {
        columns: c,
        last: Last::Nothing,
        children: Vec::new(alloc),
        open_nodes: Vec::new(alloc),
        marks: vec![in alloc; false; c as usize + 1]?,
    };
    for byte in bytes {
        if !parser.take(alloc, *byte)? {
            return Ok(None);
        }
    }
    parser.finish()
}

// What the bytes so far end with: a place where a child begins, a number that may go on, or a whole child.
#[derive(Clone, Copy)]
enum Last {
    Nothing,
    Number(u32),
    Child,
}

// An open node: whether its brackets are round, and the trees that stand before it under the node above.
#[derive(Drop)]
struct OpenNode {
    round: bool,
    before: Vec<Tree>,
}

// What stands behind the bytes so far: the children of the innermost open node, the open nodes with the innermost last,
// and a mark at each column that a leaf has. Each method answers whether the text may go on so.
#[derive(Drop)]
struct Parser {
    columns: u32,
    last: Last,
    children: Vec<Tree>,
    open_nodes: Vec<OpenNode>,
    marks: Vec<bool>,
}

// The P-node over the children for round brackets, else the Q-node.
fn node_over(round: bool, children: Vec<Tree>) -> Tree
    ensures { outline_of result ≡ node_of round (map outline_of children.items) }
{
    if round {
        Tree::P(children)
    } else {
        Tree::Q(children)
    }
}

// The fewest children of a node.
fn least_children(round: bool) -> usize
    ensures { result ≡ least_count round }
{
    if round { 2 } else { 3 }
}

impl Parser {
    // Ends a number, which is then a leaf with a column that no leaf has yet.
    fn settle(&mut self) -> Result<bool, NoMemory>
        requires { IsKept self.old }
        ensures { IfOk result (λ done. Moves done self.old self.new (settled (seen self.old))) }
    {
        match self.last {
            Last::Nothing => Ok(false),
            Last::Child => Ok(true),
            Last::Number(n) => {
                if self.marks[n as usize] {
                    return Ok(false);
                }
                self.children.push(Tree::Leaf(n))?;
                self.marks[n as usize] = true;
                self.last = Last::Child;
                Ok(true)
            }
        }
    }

    // Begins a number or goes on with one.
    fn digit(&mut self, digit: u32) -> bool
        requires kept { IsKept self.old }
        requires digit { digit ≤ 9 }
        ensures { Moves result self.old self.new (digit_at self.old.columns digit self.old.last (seen self.old)) }
    {
        match self.last {
            Last::Nothing => {
                if digit == 0 || self.columns < digit {
                    return false;
                }
                self.last = Last::Number(digit);
                true
            }
            Last::Number(n) => {
                if self.columns < n * 10 + digit {
                    return false;
                }
                self.last = Last::Number(n * 10 + digit);
                true
            }
            Last::Child => false,
        }
    }

    // Opens a node.
    fn open(&mut self, alloc: Global, round: bool) -> Result<bool, NoMemory>
        requires { IsKept self.old }
        ensures { IfOk result (λ done. Moves done self.old self.new (opened_at self.old.columns round self.old.last (seen self.old))) }
    {
        match self.last {
            Last::Nothing => {
                if self.open_nodes.len() >= self.columns as usize {
                    return Ok(false);
                }
                let before = mem::replace(&mut self.children, Vec::new(alloc));
                self.open_nodes.push(OpenNode { round, before })?;
                Ok(true)
            }
            Last::Number(_) | Last::Child => Ok(false),
        }
    }

    // Ends a child of an open node by a space.
    fn space(&mut self) -> Result<bool, NoMemory>
        requires { IsKept self.old }
        ensures { IfOk result (λ done. Moves done self.old self.new (option_and_then spaced_after (settled (seen self.old)))) }
    {
        if !self.settle()? {
            return Ok(false);
        }
        if self.open_nodes.is_empty() {
            return Ok(false);
        }
        self.last = Last::Nothing;
        Ok(true)
    }

    // Closes the innermost node.
    fn close(&mut self, round: bool) -> Result<bool, NoMemory>
        requires { IsKept self.old }
        ensures { IfOk result (λ done. Moves done self.old self.new (option_and_then (closed round) (settled (seen self.old)))) }
    {
        if !self.settle()? {
            return Ok(false);
        }
        self.close_settled(round)
    }

    // Closes the innermost node, whose last child is whole.
    fn close_settled(&mut self, round: bool) -> Result<bool, NoMemory>
        requires { IsKept self.old }
        ensures { IfOk result (λ done. Moves done self.old self.new (closed round (seen self.old))) }
    {
        match self.open_nodes.pop() {
            None => Ok(false),
            Some(node) => {
                if node.round != round || self.children.len() < least_children(round) {
                    return Ok(false);
                }
                let OpenNode { round: _, before } = node;
                let children = mem::replace(&mut self.children, before);
                self.children.push(node_over(round, children))?;
                self.last = Last::Child;
                Ok(true)
            }
        }
    }

    // Takes one byte more.
    fn take(&mut self, alloc: Global, byte: u8) -> Result<bool, NoMemory>
        requires { IsKept self.old }
        ensures { IfOk result (λ done. Moves done self.old self.new (step self.old.columns (seen self.old) byte)) }
    {
        if byte.is_ascii_digit() {
            return Ok(self.digit(u32::from(byte - b'0')));
        }
        match byte {
            b'(' => self.open(alloc, true),
            b'[' => self.open(alloc, false),
            b' ' => self.space(),
            b')' => self.close(true),
            b']' => self.close(false),
            _ => Ok(false),
        }
    }

    // The tree, where all of it has been read.
    fn finish(mut self) -> Result<Option<Tree>, NoMemory>
        requires { IsKept self }
        ensures { IfOk result (λ o. option_map outline_of o ≡ option_and_then (finished self.columns) (settled (seen self))) }
    {
        if !self.settle()? {
            return Ok(None);
        }
        Ok(self.only_child())
    }

    // The only child, where no node is open and each column has a leaf.
    fn only_child(mut self) -> Option<Tree>
        requires { IsKept self }
        ensures { option_map outline_of result ≡ finished self.columns (seen self) }
    {
        if !self.open_nodes.is_empty() || !all_marked(&self.marks, self.columns) {
            return None;
        }
        if self.children.len() != 1 {
            return None;
        }
        self.children.pop()
    }
}

// Whether each of 1 to c has a mark.
fn all_marked(marks: &[bool], c: u32) -> bool
    requires { length marks.now ≡ c + 1 }
    ensures { (xs : List ℕ) → ((j : ℕ) → j < c + 1 → slice_index_or marks.now j false ≡ has xs j) → result ≡ covers c xs }
{
    for i in 0..c {
        if !marks[i as usize + 1] {
            return false;
        }
    }
    true
}

/// No two proper trees over 1 to c have one text. A call stands for the clause alone.
pub fn one_tree()
    ensures { (c : ℕ) (t u : Outline) → c ≤ COLUMN_BOUND → IsProper c t → IsProper c u → tree_text t ≡ tree_text u → t ≡ u }
{}
