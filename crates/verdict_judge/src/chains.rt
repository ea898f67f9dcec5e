// The lines in chains by the first columns of their pairs.
ghost use Rattle.std.specs.Prelude.{◌≡◌, ◌≢◌, ℕ, ◌+◌, ◌<◌, ◌≤◌, length, slice_index_or, All, IfOk};
ghost use Rattle.row_model.specs.declared.graph.Line.{Line};
ghost use Rattle.text_parts.specs.Grammar.{Fits32};
ghost use Rattle.verdict_judge.specs.NoTests.{PassesPair, PassesRepeat};
ghost use Rattle.verdict_judge.specs.Chains.{AreChains};

use row_model::{Line, NoMemory};
use std::alloc::Global;

/// A chain of lines for each column: those whose pairs have it as the first column, in their order. Lines count from 0
/// here, and each chain ends with the number of lines.
#[derive(Drop)]
pub struct Chains {
    /// For each column from 0 the first line of its chain.
    pub firsts: Vec<u32>,
    /// For each line the next one of its chain.
    pub nexts: Vec<u32>,
}

/// The chains of the lines.
pub fn chains_of(alloc: Global, c: u32, lines: &[Line]) -> Result<Chains, NoMemory>
    requires few { Fits32 (length lines.now) }
    requires pairs { (k : ℕ) → 1 ≤ k → k ≤ length lines.now → PassesPair c lines.now k }
    ensures columns { IfOk result (λ chains. length chains.firsts.items ≡ c + 1) }
    ensures chains { IfOk result (λ chains. AreChains lines.now 0 chains.firsts.items chains.nexts.items) }
{
    let end = lines.len() as u32;
    let mut firsts = vec![in alloc; end; c as usize + 1]?;
    let mut nexts = vec![in alloc; end; lines.len()]?;
    let mut i = lines.len();
    while i > 0 {
        i -= 1;
        let a = lines[i].pair.a as usize;
        nexts[i] = firsts[a];
        firsts[a] = i as u32;
    }
    Ok(Chains { firsts, nexts })
}

/// The least of a line and of the lines of a column's chain whose pairs stand on earlier lines.
///
/// A second column is stamped with the first one of its pair. The stamps are of columns below this one.
pub fn least_in_chain(
    lines: &[Line],
    chains: &Chains,
    a: u32,
    stamps: &mut [u32],
    least: usize,
) -> usize
    requires chains { AreChains lines.now 0 chains.now.firsts.items chains.now.nexts.items }
    requires column { a < length chains.now.firsts.items }
    requires pairs { All (λ line. line.pair.b < length stamps.old) lines.now }
    requires stamps { All (λ stamp. stamp < a) stamps.old }
    requires least { least ≤ length lines.now }
    ensures length { length stamps.new ≡ length stamps.old }
    ensures stamps { All (λ stamp. stamp ≤ a) stamps.new }
    ensures bound { result ≤ least }
    ensures fails { result ≢ least → PassesRepeat lines.now (result + 1) → ⊥ }
    ensures passed { (i : ℕ) (d : Line) → i < result → (slice_index_or lines.now i d).pair.a ≡ a
        → PassesRepeat lines.now (i + 1) }
{
    let mut at = chains.firsts[a as usize] as usize;
    while at < least {
        let b = lines[at].pair.b as usize;
        if stamps[b] == a {
            return at;
        }
        stamps[b] = a;
        at = chains.nexts[at] as usize;
    }
    least
}
