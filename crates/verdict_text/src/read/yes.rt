// A yes: its sides, and what its kind adds.
ghost use Rattle.std.specs.Prelude.{◌≡◌, ◌≤◌, [], ◌∷◌, length};
ghost use Rattle.verdict_text.specs.Grammar.{AreColumnCounts};
ghost use Rattle.row_model.specs.declared.kind.Kind.TheVariants.{Doubly};
ghost use Rattle.verdict_text.specs.Reading.{yes_at, side_at, tree_at, line_len, order_at, added_at, placed_at};
ghost use Rattle.text_parts.specs.Seen.{Gives, numbers_seen};
ghost use Rattle.verdict_text.specs.Seen.{yes_seen, side_seen, tree_seen, added_seen};
ghost use Rattle.verdict_text.specs.Value.{column_counts};

use crate::lines::{ContigLine, IntervalLine, PlaceLine};
use crate::verdict::{Added, Columns, Side, Sides, YesPart};
use pq_tree::PqTree;
use row_model::{COLUMN_BOUND, Intervals, Kind, Places, Spans};
use std::alloc::Global;
use text_parts::{Stop, after, read_counted, read_lines, read_numbers};

#[tactic(auto, unfolding(crate::specs::Reading::yes_at))]
pub fn read_yes(
    alloc: Global,
    kind: Kind,
    columns: Columns,
    bytes: &[u8],
) -> Result<(YesPart, &[u8]), Stop>
    requires { AreColumnCounts (column_counts columns) }
    ensures { Gives yes_seen result (yes_at kind (column_counts columns) bytes.now) }
{
    match columns {
        Columns::One(c) => read_one(alloc, kind, c, bytes),
        Columns::Two(c, d) => read_two(alloc, c, d, bytes),
    }
}

// A yes with one side.
#[tactic(auto, unfolding(crate::specs::Reading::yes_at))]
fn read_one(alloc: Global, kind: Kind, c: u32, bytes: &[u8]) -> Result<(YesPart, &[u8]), Stop>
    requires { (1 ≤ c) × (c ≤ COLUMN_BOUND) }
    ensures { Gives yes_seen result (yes_at kind (c ∷ []) bytes.now) }
{
    let (side, rest) = read_side(alloc, c, bytes)?;
    let (added, rest) = read_added(alloc, kind, c, rest)?;
    let sides = Sides::One(side, added);
    Ok((YesPart { sides }, rest))
}

// A yes with two sides, whose kind adds nothing.
#[tactic(auto, unfolding(crate::specs::Reading::yes_at))]
fn read_two(alloc: Global, c: u32, d: u32, bytes: &[u8]) -> Result<(YesPart, &[u8]), Stop>
    requires first { (1 ≤ c) × (c ≤ COLUMN_BOUND) }
    requires second { (1 ≤ d) × (d ≤ COLUMN_BOUND) }
    ensures { Gives yes_seen result (yes_at Doubly (c ∷ d ∷ []) bytes.now) }
{
    let (first, rest) = read_side(alloc, c, bytes)?;
    let (second, rest) = read_side(alloc, d, rest)?;
    let sides = Sides::Two(first, second);
    Ok((YesPart { sides }, rest))
}

#[tactic(auto, unfolding(crate::specs::Reading::side_at, crate::specs::Value::side_value))]
fn read_side(alloc: Global, c: u32, bytes: &[u8]) -> Result<(Side, &[u8]), Stop>
    requires { (1 ≤ c) × (c ≤ COLUMN_BOUND) }
    ensures { Gives side_seen result (side_at c bytes.now) }
{
    let rest = after(bytes, b"tree ")?;
    let (tree, rest) = read_tree(alloc, c, rest)?;
    let (order, rest) = read_order(alloc, rest)?;
    Ok((Side { tree, order }, rest))
}

// The order of a side, one number or more.
#[tactic(auto, unfolding(crate::specs::Reading::order_at))]
fn read_order(alloc: Global, bytes: &[u8]) -> Result<(Vec<u32>, &[u8]), Stop>
    ensures { Gives numbers_seen result (order_at bytes.now) }
{
    let rest = after(bytes, b"\norder")?;
    let (order, rest) = read_numbers(alloc, rest)?;
    let rest = after(rest, b"\n")?;
    if order.is_empty() {
        return Err(Stop::Outside);
    }
    Ok((order, rest))
}

// The tree over 1 to c that stands before the first line feed.
fn read_tree(alloc: Global, c: u32, bytes: &[u8]) -> Result<(PqTree, &[u8]), Stop>
    requires { (1 ≤ c) × (c ≤ COLUMN_BOUND) }
    ensures { Gives tree_seen result (tree_at c bytes.now) }
{
    let end = line_length(bytes);
    match PqTree::parse(alloc, &bytes[..end], c)? {
        None => Err(Stop::Outside),
        Some(tree) => Ok((tree, &bytes[end..])),
    }
}

// How many bytes stand before the first line feed.
fn line_length(bytes: &[u8]) -> usize
    ensures count { result ≡ line_len bytes.now }
    ensures within { result ≤ length bytes.now }
{
    for (i, byte) in bytes.iter().enumerate() {
        if *byte == b'\n' {
            return i;
        }
    }
    bytes.len()
}

// What a kind with one side of c columns adds.
fn read_added(alloc: Global, kind: Kind, c: u32, bytes: &[u8]) -> Result<(Added, &[u8]), Stop>
    ensures { Gives added_seen result (added_at kind c bytes.now) }
{
    match kind {
        Kind::Proper => {
            let (intervals, rest) = read_lines::<IntervalLine>(alloc, c, bytes)?;
            let added = Added {
                intervals,
                places: Places::new(alloc),
                contigs: Spans::new(alloc),
            };
            Ok((added, rest))
        }
        Kind::Clones => read_placed(alloc, bytes),
        Kind::Matrix
        | Kind::Rows
        | Kind::Table
        | Kind::Circular
        | Kind::Convex
        | Kind::Doubly
        | Kind::Robinson => {
            let added = Added {
                intervals: Intervals::new(alloc),
                places: Places::new(alloc),
                contigs: Spans::new(alloc),
            };
            Ok((added, bytes))
        }
    }
}

// The places and the contigs of clones.
#[tactic(auto, unfolding(crate::specs::Reading::placed_at))]
fn read_placed(alloc: Global, bytes: &[u8]) -> Result<(Added, &[u8]), Stop>
    ensures { Gives added_seen result (placed_at bytes.now) }
{
    let (places, rest) = read_counted::<PlaceLine>(alloc, b"places ", bytes)?;
    let (contigs, rest) = read_counted::<ContigLine>(alloc, b"contigs ", rest)?;
    let added = Added {
        intervals: Intervals::new(alloc),
        places,
        contigs,
    };
    Ok((added, rest))
}
