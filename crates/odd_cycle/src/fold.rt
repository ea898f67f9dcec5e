// The short odd cycle into which a closed walk of odd length folds.
ghost use Rattle.std.specs.Prelude.{◌≡◌, ◌↔◌, ℕ, ◌+◌, ◌%◌, ◌<◌, ◌≤◌, [], ◌∷◌, ◌++◌, List, take, length, All, IfOk, OnOk, IsTrue};
ghost use Rattle.row_model.specs.declared.graph.Pair.{Pair};
ghost use Rattle.row_model.specs.Graph.{IsPair};
ghost use Rattle.row_model.specs.Cycles.{IsOdd, IsSimpleOdd, IsOddCycle, IsOddWalk};
ghost use Rattle.odd_cycle.specs.Numbers.{IsIndexed, number_of};
ghost use Rattle.odd_cycle.specs.Fold.{closing, differ, IsPlaceOf, TellsTurned};
ghost use Rattle.odd_cycle.specs.Short.{columns_of, lesser_first, one_if, IsNamedBy, IsShort};

use crate::cycle::Cycle;
use crate::numbers::PairNumbers;
use crate::pairs::{lesser_first, turned_if};
use row_model::{COLUMN_BOUND, Line, NoMemory, Pair, Why};
use std::alloc::Global;

/// The odd cycle into which a closed walk of odd length folds. It has at most one flip, and at most c(c - 1)/2 + 1 lines
/// where the walk is in a graph of c columns. Each row that it names is named by the walk.
///
/// Where a row joins two pairs it joins the two turned as well, that is, with their columns exchanged. So a flip is
/// left out of the walk by turning all pairs behind it. What is left of the walk comes back to its first pair, or to
/// that pair turned, and then one flip closes it. The same holds of each part of it between two lines with the same two
/// columns, and one of the parts is odd. So the walk is followed until two columns come again: the lines since then are
/// the cycle where they, with the flip that may close them, are odd in number, and are left out where they are even.
///
/// It takes 4 bytes for each ordered pair of columns, and room for as many lines as the walk has.
///
/// # Errors
///
/// `NoMemory`.
pub fn short_cycle(alloc: Global, columns: u32, walk: &[Line]) -> Result<Cycle, NoMemory>
    requires few { columns ≤ COLUMN_BOUND }
    requires walk { (rows : List (List ℕ)) × IsOddWalk columns rows walk.now }
    ensures cycle { (rows : List (List ℕ)) → IsOddWalk columns rows walk.now → IfOk result (IsOddCycle columns rows) }
    ensures short { IfOk result (IsShort columns) }
    ensures named { IfOk result (All (IsNamedBy walk.now)) }
{
    let mut numbers = PairNumbers::new(alloc, columns)?;
    let mut path = Vec::new(alloc);
    let mut turned = false;
    for line in walk {
        match line.why {
            Why::Flip => turned = !turned,
            Why::Row(_) => {
                let v = turned_if(line.pair, turned);
                let keep = place(&numbers, &path, v);
                let back = stands_turned(&path, keep, v);
                if is_odd(path.len() - keep, back) {
                    return closed(path.split_off(keep)?, v, back);
                }
                turned = differ(turned, back);
                cut(&mut numbers, &mut path, keep);
                let pair = turned_if(v, back);
                extend(&mut numbers, &mut path, Line { pair, ..*line })?;
            }
        }
    }
    closed(path, turned_if(walk[0].pair, turned), turned)
}

// The index of the line with these two columns, or the length of the path where there is none.
fn place(numbers: &PairNumbers, path: &[Line], v: Pair) -> usize
    requires { IsPair numbers.now.columns v }
    ensures { IsPlaceOf numbers.now path.now v result }
{
    match numbers.get(lesser_first(v)) {
        0 => path.len(),
        number => number as usize - 1,
    }
}

// Whether the line at an index has the pair turned.
fn stands_turned(path: &[Line], index: usize, v: Pair) -> bool
    ensures { TellsTurned path.now index v result }
{
    match path.get(index) {
        Some(line) => line.pair != v,
        None => false,
    }
}

// Whether so many lines, and one more where a flip closes them, are odd in number.
fn is_odd(lines: usize, flip: bool) -> bool
    ensures { IsTrue result ↔ IsOdd (lines + one_if flip) }
{
    (lines % 2 == 1) != flip
}

// Whether one of the two holds and the other does not.
fn differ(one: bool, other: bool) -> bool
    ensures { result ≡ differ one other }
{
    one != other
}

// The cycle of a path that leads to its first pair, or to that pair turned, and is closed by a flip then.
fn closed(mut path: Vec<Line>, end: Pair, turned: bool) -> Result<Cycle, NoMemory>
    requires { IsSimpleOdd (path.items ++ closing turned end) }
    ensures { IfOk result (λ cycle. cycle ≡ path.items ++ closing turned end) }
{
    close(&mut path, end, turned)?;
    Ok(Cycle::from_lines(path))
}

// Adds a flip from the pair, if the path is to be closed by one.
fn close(path: &mut Vec<Line>, end: Pair, turned: bool) -> Result<(), NoMemory>
    ensures { OnOk result (path.new.items ≡ path.old.items ++ closing turned end) }
{
    if turned {
        path.push(Line {
            pair: end,
            why: Why::Flip,
        })?;
    }
    Ok(())
}

// Adds a line to the path, with two columns that the path does not have.
fn extend(numbers: &mut PairNumbers, path: &mut Vec<Line>, line: Line) -> Result<(), NoMemory>
    requires indexed { IsIndexed columns_of numbers.old path.old.items }
    requires pair { IsPair numbers.old.columns line.pair }
    requires fresh { number_of numbers.old (columns_of line) ≡ 0 }
    ensures { OnOk result (IsIndexed columns_of numbers.new path.new.items
        × (numbers.new.columns ≡ numbers.old.columns) × (path.new.items ≡ path.old.items ++ line ∷ [])) }
{
    path.push(line)?;
    numbers.set(lesser_first(line.pair), path.len() as u32);
    Ok(())
}

// Keeps the first so many lines of the path, and takes the numbers of the others back.
fn cut(numbers: &mut PairNumbers, path: &mut Vec<Line>, keep: usize)
    requires indexed { IsIndexed columns_of numbers.old path.old.items }
    requires within { keep ≤ length path.old.items }
    ensures indexed { IsIndexed columns_of numbers.new path.new.items }
    ensures columns { numbers.new.columns ≡ numbers.old.columns }
    ensures path { path.new.items ≡ take keep path.old.items }
    ensures kept { (v : Pair) → IsPair numbers.old.columns v → number_of numbers.old v ≤ keep → number_of numbers.new v ≡ number_of numbers.old v }
    ensures lost { (v : Pair) → IsPair numbers.old.columns v → keep < number_of numbers.old v → number_of numbers.new v ≡ 0 }
{
    for line in &path[keep..] {
        numbers.set(lesser_first(line.pair), 0);
    }
    path.truncate(keep);
}
