// What leads from a pair to the pairs that rows join to it.
ghost use Rattle.std.specs.Prelude.{◌≡◌, ◌<◌, ◌≤◌, ℕ, List, Some, length, IfOk, OnOk, IfSome, MatchOption};
ghost use Rattle.row_model.specs.declared.graph.Line.{Line};
ghost use Rattle.row_model.specs.declared.graph.Pair.{Pair};
ghost use Rattle.row_model.specs.declared.graph.Why.{Why};
ghost use Rattle.row_model.specs.Graph.{IsPair, JoinedBy};
ghost use Rattle.row_model.specs.Rows.{RowList};
ghost use Rattle.open_gaps.specs.Gaps.{AreGaps};
ghost use Rattle.open_gaps.specs.Tables.{GapTable};
ghost use Rattle.walk_search.specs.declared.forest.Node.{Node};
ghost use Rattle.walk_search.specs.Neighbours.{AreNeighbours};
ghost use Rattle.walk_search.specs.Weights.{TellsJoining};
ghost use Rattle.odd_cycle.specs.Numbers.{IsIndexed};
ghost use Rattle.walk_search.specs.Search.{pair_of_node, IsForest, IsJoinedFrom, KeepsNodes, HasGrown, HasStepped, HasCrossed, HasLeft, ShowsConflict};

use crate::forest::{Conflict, Forest};
use open_gaps::OpenGaps;
use row_model::{Line, NoMemory, Pair, Why};

/// What leads from a pair to the pairs that rows join to it: the open gaps of the first rows, where the search goes
/// along an order that is valid for them, and for each column the further rows that have it.
pub struct Neighbours {
    /// The number of first rows, which is 0 where there are no gaps.
    pub first: u32,
    /// The gaps that the first rows leave open.
    pub gaps: Option<OpenGaps>,
    /// For each column the further rows that have it, numbered from 1 after the first ones.
    pub holders: Vec<Vec<u32>>,
}

// By hand, so that a place where they are dropped proves one call and does not take their parts apart.
impl Drop for Neighbours {
    fn drop(self) {
        let Neighbours {
            first: _first,
            gaps: _gaps,
            holders: _holders,
        } = self;
    }
}

impl Neighbours {
    /// Whether rows can join pairs by a column: a further row has it, or it stands beside an open gap. Then a row has it.
    pub fn can_join(&self, column: u32) -> bool
        requires column { (1 ≤ column) × (column ≤ length self.now.holders.items) }
        requires gaps { (t : GapTable) → self.now.gaps ≡ Some t → length t.order ≡ length self.now.holders.items }
        ensures { (m : RowList) (further : ℕ) → AreNeighbours m further self.now → TellsJoining m self.now column result }
    {
        if !self.holders[column as usize - 1].is_empty() {
            return true;
        }
        match &self.gaps {
            None => false,
            Some(gaps) => gaps.is_at_open_gap(column),
        }
    }
}

// Reaches from a node its pair with the columns exchanged, and the pairs across the open gaps beside its first column.
pub fn leave(
    gaps: &Option<OpenGaps>,
    forest: &mut Forest,
    from: u32,
) -> Result<Option<Conflict>, NoMemory>
    requires indexed { IsIndexed pair_of_node forest.old.numbers forest.old.nodes.items }
    requires from { from < length forest.old.nodes.items }
    requires gaps { (t : GapTable) → gaps.now ≡ Some t
        → (length t.order ≡ forest.old.numbers.columns) × ((front : List (List ℕ)) × AreGaps front t.order t.gaps) }
    ensures { (c : ℕ) (front rows : List (List ℕ)) → IsForest c rows forest.old → forest.old.root ≤ from
        → ((t : GapTable) → gaps.now ≡ Some t → AreGaps front t.order t.gaps)
        → ((v w : Pair) (why : Why) → JoinedBy c front v w why → JoinedBy c rows v w why)
        → IfOk result (λ found. MatchOption found (HasLeft c front rows gaps.now forest.old forest.new from) (ShowsConflict c rows forest.new)) }
{
    let pair = forest.nodes[from as usize].pair;
    let line = Line {
        pair: Pair {
            a: pair.b,
            b: pair.a,
        },
        why: Why::Flip,
    };
    if let Some(conflict) = forest.step(from, line)? {
        return Ok(Some(conflict));
    }
    match gaps {
        None => Ok(None),
        Some(gaps) => cross(gaps, forest, from),
    }
}

// Reaches from a node the pairs across the open gaps beside its first column.
fn cross(gaps: &OpenGaps, forest: &mut Forest, from: u32) -> Result<Option<Conflict>, NoMemory>
    requires indexed { IsIndexed pair_of_node forest.old.numbers forest.old.nodes.items }
    requires from { from < length forest.old.nodes.items }
    requires columns { length gaps.now.order ≡ forest.old.numbers.columns }
    requires gaps { (front : List (List ℕ)) × AreGaps front gaps.now.order gaps.now.gaps }
    ensures { (c : ℕ) (front rows : List (List ℕ)) → IsForest c rows forest.old → forest.old.root ≤ from
        → AreGaps front gaps.now.order gaps.now.gaps
        → ((v w : Pair) (why : Why) → JoinedBy c front v w why → JoinedBy c rows v w why)
        → IfOk result (λ found. MatchOption found (HasCrossed c front rows gaps.now.order forest.old forest.new from) (ShowsConflict c rows forest.new)) }
{
    let pair = forest.nodes[from as usize].pair;
    if let Some(conflict) = step_to(forest, from, gaps.before(pair))? {
        return Ok(Some(conflict));
    }
    step_to(forest, from, gaps.behind(pair))
}

// Reaches the pair of the line, if there is one.
fn step_to(forest: &mut Forest, from: u32, line: Option<Line>) -> Result<Option<Conflict>, NoMemory>
    requires indexed { IsIndexed pair_of_node forest.old.numbers forest.old.nodes.items }
    requires from { from < length forest.old.nodes.items }
    requires pair { IfSome line (λ l. IsPair forest.old.numbers.columns l.pair) }
    ensures kept { OnOk result (KeepsNodes forest.old forest.new) }
    ensures stepped { (c : ℕ) (rows : List (List ℕ)) → IsForest c rows forest.old → forest.old.root ≤ from
        → IfSome line (IsJoinedFrom c rows forest.old from)
        → IfOk result (λ found. MatchOption found
        (HasGrown c rows forest.old forest.new × IfSome line (λ l. HasStepped c rows forest.old forest.new from l.pair))
        (ShowsConflict c rows forest.new)) }
{
    match line {
        None => Ok(None),
        Some(line) => forest.step(from, line),
    }
}
