#![tactic(auto, unfolding(crate::specs::Value::side_value))]
// The text of a verdict, line by line.
ghost use Rattle.std.specs.Prelude.{◌≡◌, ◌++◌, flat_map, OnOk, OnErr};
ghost use Rattle.plain_text.specs.Pieces.{Extends};
ghost use Rattle.pq_tree.specs.PqTree.{outline};
ghost use Rattle.verdict_text.specs.Text.{version_line, kind_line, columns_line, head_text, side_text, contigs_text, added_text, cycle_text, claim_text, verdict_text};
ghost use Rattle.text_parts.specs.Text.{number_word};
ghost use Rattle.verdict_text.specs.Value.{column_counts, side_value, sides_value, yes_value, claim_of, verdict_value};

use crate::NoMemory;
use crate::lines::{ContigLine, IntervalLine, PlaceLine};
use crate::verdict::{Columns, NoPart, Part, Side, Sides, Verdict, Version, YesPart};
use plain_text::push_number;
use pq_tree::PqTree;
use row_model::{Kind, Span};
use text_parts::{print_counted, print_cycle, print_lines, push, push_words, word_of};

/// Appends the text of a verdict.
///
/// # Errors
///
/// `NoMemory`. What `text` held is still its front.
pub fn print(v: &Verdict, text: &mut Vec<u8>) -> Result<(), NoMemory>
    ensures ok { OnOk result (text.new.items ≡ text.old.items ++ verdict_text (verdict_value v.now)) }
    ensures err { OnErr result (Extends text.old.items text.new.items) }
{
    push_head(v.version, v.kind, v.columns, text)?;
    push_part(v.kind, &v.part, text)?;
    push(text, b"end\n")
}

// The first three lines.
fn push_head(
    version: Version,
    kind: Kind,
    columns: Columns,
    text: &mut Vec<u8>,
) -> Result<(), NoMemory>
    ensures ok { OnOk result (text.new.items ≡ text.old.items ++ head_text version kind (column_counts columns)) }
    ensures err { OnErr result (Extends text.old.items text.new.items) }
{
    push(text, line_of(version))?;
    print_subject(kind, columns, text)
}

// The first line, which names the version.
pub fn line_of(version: Version) -> &'static [u8]
    ensures { result.now ≡ version_line version }
{
    match version {
        Version::One => b"pq-verdict 1\n",
        Version::Two => b"pq-verdict 2\n",
    }
}

/// Appends the lines `kind K` and `columns C`, the second with one number for each side.
///
/// # Errors
///
/// `NoMemory`. What `text` held is still its front.
pub fn print_subject(kind: Kind, columns: Columns, text: &mut Vec<u8>) -> Result<(), NoMemory>
    ensures ok { OnOk result (text.new.items ≡ text.old.items ++ (kind_line kind ++ columns_line (column_counts columns))) }
    ensures err { OnErr result (Extends text.old.items text.new.items) }
{
    push(text, b"kind ")?;
    push(text, word_of(kind))?;
    push(text, b"\ncolumns")?;
    push_columns(columns, text)?;
    push(text, b"\n")
}

fn push_columns(columns: Columns, text: &mut Vec<u8>) -> Result<(), NoMemory>
    ensures ok { OnOk result (text.new.items ≡ text.old.items ++ flat_map number_word (column_counts columns)) }
    ensures err { OnErr result (Extends text.old.items text.new.items) }
{
    match columns {
        Columns::One(c) => push_words(&[c], text),
        Columns::Two(c, d) => push_words(&[c, d], text),
    }
}

fn push_part(kind: Kind, part: &Part, text: &mut Vec<u8>) -> Result<(), NoMemory>
    ensures ok { OnOk result (text.new.items ≡ text.old.items ++ claim_text kind (claim_of part.now)) }
    ensures err { OnErr result (Extends text.old.items text.new.items) }
{
    match part {
        Part::Yes(yes) => {
            push(text, b"answer yes\n")?;
            push_sides(&yes.sides, text)?;
            push_added(kind, yes, text)
        }
        Part::No(no) => {
            push(text, b"answer no\n")?;
            push_no(no, text)
        }
    }
}

fn push_sides(sides: &Sides, text: &mut Vec<u8>) -> Result<(), NoMemory>
    ensures ok { OnOk result (text.new.items ≡ text.old.items ++ flat_map side_text (sides_value sides.now).sides) }
    ensures err { OnErr result (Extends text.old.items text.new.items) }
{
    match sides {
        Sides::One(only, _) => push_side(only, text),
        Sides::Two(first, second) => {
            push_side(first, text)?;
            push_side(second, text)
        }
    }
}

fn push_side(side: &Side, text: &mut Vec<u8>) -> Result<(), NoMemory>
    ensures ok { OnOk result (text.new.items ≡ text.old.items ++ side_text (side_value side.now)) }
    ensures err { OnErr result (Extends text.old.items text.new.items) }
{
    print_side(&side.tree, &side.order, text)
}

/// Appends the lines `tree T` and `order N1 N2 ..`.
///
/// # Errors
///
/// `NoMemory`. What `text` held is still its front.
pub fn print_side(tree: &PqTree, order: &[u32], text: &mut Vec<u8>) -> Result<(), NoMemory>
    ensures ok { OnOk result (text.new.items ≡ text.old.items ++ side_text (record { tree = outline tree.now; order = order.now })) }
    ensures err { OnErr result (Extends text.old.items text.new.items) }
{
    push(text, b"tree ")?;
    tree.print(text)?;
    push(text, b"\norder")?;
    push_words(order, text)?;
    push(text, b"\n")
}

// What the kind adds.
fn push_added(kind: Kind, yes: &YesPart, text: &mut Vec<u8>) -> Result<(), NoMemory>
    ensures ok { OnOk result (text.new.items ≡ text.old.items ++ added_text kind (yes_value yes.now).added) }
    ensures err { OnErr result (Extends text.old.items text.new.items) }
{
    match kind {
        Kind::Proper => print_lines::<IntervalLine>(yes.intervals(), text),
        Kind::Clones => {
            print_counted::<PlaceLine>(b"places ", yes.places(), text)?;
            push_contigs(yes.contigs(), text)
        }
        Kind::Matrix
        | Kind::Rows
        | Kind::Table
        | Kind::Circular
        | Kind::Convex
        | Kind::Doubly
        | Kind::Robinson => Ok(()),
    }
}

fn push_contigs(contigs: &[Span], text: &mut Vec<u8>) -> Result<(), NoMemory>
    ensures ok { OnOk result (text.new.items ≡ text.old.items ++ contigs_text contigs.now) }
    ensures err { OnErr result (Extends text.old.items text.new.items) }
{
    print_counted::<ContigLine>(b"contigs ", contigs, text)
}

// A side without an order, and its cycle.
fn push_no(no: &NoPart, text: &mut Vec<u8>) -> Result<(), NoMemory>
    ensures ok { OnOk result (text.new.items ≡ text.old.items ++ cycle_text no.now.side no.now.lines) }
    ensures err { OnErr result (Extends text.old.items text.new.items) }
{
    push(text, b"side ")?;
    push_number(text, u64::from(no.side))?;
    push(text, b"\n")?;
    print_cycle(no.lines.as_slice(), text)
}
