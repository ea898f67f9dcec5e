// The first three lines of a verdict: its version, its kind and its columns.
ghost use Rattle.std.specs.Prelude.{◌≡◌, ◌≤◌, IfOk};
ghost use Rattle.plain_text.specs.Rest.{with_rest};
ghost use Rattle.verdict_text.specs.Grammar.{side_count, AreColumnCounts};
ghost use Rattle.verdict_text.specs.Reading.{version_at, columns_at, head_at};
ghost use Rattle.text_parts.specs.Seen.{Gives};
ghost use Rattle.verdict_text.specs.Seen.{columns_seen, head_seen};
ghost use Rattle.verdict_text.specs.Value.{column_counts};

use crate::verdict::{Columns, Version};
use crate::write::line_of;
use plain_text::after_word;
use row_model::Kind;
use text_parts::{Stop, after, read_column_count, read_kind};

#[tactic(auto, unfolding(crate::specs::Reading::head_at))]
pub fn read_head(bytes: &[u8]) -> Result<(Version, Kind, Columns, &[u8]), Stop>
    ensures value { Gives head_seen result (head_at bytes.now) }
    ensures columns { IfOk result (λ x. AreColumnCounts (column_counts x.2)) }
{
    let (version, rest) = read_version(bytes)?;
    let rest = after(rest, b"kind ")?;
    let (kind, rest) = read_kind(rest)?;
    let rest = after(rest, b"\ncolumns")?;
    let (columns, rest) = read_columns(side_count(kind), rest)?;
    let rest = after(rest, b"\n")?;
    Ok((version, kind, columns, rest))
}

#[tactic(auto, unfolding(crate::specs::Reading::version_at))]
fn read_version(bytes: &[u8]) -> Result<(Version, &[u8]), Stop>
    ensures { Gives with_rest result (version_at bytes.now) }
{
    match after_word(bytes, line_of(Version::One)) {
        Some(rest) => Ok((Version::One, rest)),
        None => {
            let rest = after(bytes, line_of(Version::Two))?;
            Ok((Version::Two, rest))
        }
    }
}

#[tactic(auto, unfolding(crate::specs::Reading::columns_at))]
fn read_columns(sides: u8, bytes: &[u8]) -> Result<(Columns, &[u8]), Stop>
    requires { (1 ≤ sides) × (sides ≤ 2) }
    ensures value { Gives columns_seen result (columns_at sides bytes.now) }
    ensures columns { IfOk result (λ x. AreColumnCounts (column_counts x.0)) }
{
    let (c, rest) = read_column_count(bytes)?;
    if sides == 1 {
        return Ok((Columns::One(c), rest));
    }
    let (d, rest) = read_column_count(rest)?;
    Ok((Columns::Two(c, d), rest))
}

// How many sides a kind has.
pub fn side_count(kind: Kind) -> u8
    ensures { result ≡ side_count kind }
{
    match kind {
        Kind::Doubly => 2,
        Kind::Matrix
        | Kind::Rows
        | Kind::Table
        | Kind::Circular
        | Kind::Convex
        | Kind::Proper
        | Kind::Robinson
        | Kind::Clones => 1,
    }
}
