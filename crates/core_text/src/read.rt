// A core, read from the front of bytes. Each reader gives what it read and the bytes after it.
ghost use Rattle.std.specs.Prelude.{◌≡◌, ◌≢◌, codes, length, IfOk, IfSome, IfNone};
ghost use Rattle.text_parts.specs.Numbered.{numbered_at};
ghost use Rattle.text_parts.specs.Reading.{counted_at};
ghost use Rattle.text_parts.specs.Seen.{Gives};
ghost use Rattle.core_text.specs.Texts.{TextValue, IsInGrammar, core_text};
ghost use Rattle.core_text.specs.Reading.{entry_at, parts_of, core_of};
ghost use Rattle.core_text.specs.Seen.{entry_seen, entries_seen};

use crate::orders::Orders;
use crate::text::CoreText;
use row_model::{Kind, NoMemory};
use std::alloc::Global;
use text_parts::{
    Stop, after, read_column_count, read_cycle, read_kind, read_number, read_numbers, room,
};

// The fewest bytes of a row and its order.
const LEAST_ENTRY: usize = 16;

// Rows with their orders.
#[derive(Drop)]
struct Entries {
    rows: Vec<u32>,
    orders: Orders,
}

/// The core of which the bytes are the text; none where the bytes are outside the grammar.
///
/// No list takes more room than the bytes that are left can fill.
///
/// # Errors
///
/// `NoMemory`.
pub fn parse_core(alloc: Global, bytes: &[u8]) -> Result<Option<CoreText>, NoMemory>
    ensures within { IfOk result (λ o. IfSome o (λ t. IsInGrammar t)) }
    ensures found { IfOk result (λ o. IfSome o (λ t. bytes.now ≡ core_text t)) }
    ensures none { IfOk result (λ o. IfNone o ((t : TextValue) → IsInGrammar t → bytes.now ≢ core_text t)) }
{
    match read_core(alloc, bytes) {
        Ok(core) => Ok(Some(core)),
        Err(Stop::Outside) => Ok(None),
        Err(Stop::NoMemory) => Err(NoMemory),
    }
}

// The core that all of the bytes are the text of.
#[tactic(auto, unfolding(crate::specs::Reading::core_of))]
fn read_core(alloc: Global, bytes: &[u8]) -> Result<CoreText, Stop>
    ensures { Gives (λ t. t) result (core_of bytes.now) }
{
    let rest = after(bytes, b"pq-core 1\nkind ")?;
    let (kind, rest) = read_kind(rest)?;
    let rest = after(rest, b"\ncolumns")?;
    let (columns, rest) = read_column_count(rest)?;
    read_parts(alloc, kind, columns, rest)
}

// The rows with their orders and the lines of the cycle, which end the bytes.
#[tactic(auto, unfolding(crate::specs::Reading::parts_of))]
fn read_parts(alloc: Global, kind: Kind, columns: u32, bytes: &[u8]) -> Result<CoreText, Stop>
    ensures { Gives (λ t. t) result (parts_of kind columns bytes.now) }
{
    let (entries, rest) = read_entries(alloc, bytes)?;
    let (lines, rest) = read_cycle(alloc, b"cycle ", rest)?;
    let rest = after(rest, b"end\n")?;
    if !rest.is_empty() {
        return Err(Stop::Outside);
    }
    let Entries { rows, orders } = entries;
    Ok(CoreText {
        kind,
        columns,
        rows,
        orders,
        lines,
    })
}

// The number of rows, and the rows with their orders.
#[tactic(auto, unfolding(text_parts::specs::Reading::counted_at))]
fn read_entries(alloc: Global, bytes: &[u8]) -> Result<(Entries, &[u8]), Stop>
    ensures value { Gives entries_seen result (counted_at (codes "\ncore ") entry_at bytes.now) }
    ensures each { IfOk result (λ x. length x.0.orders ≡ length x.0.rows.items) }
{
    let rest = after(bytes, b"\ncore ")?;
    let (count, rest) = read_number(rest)?;
    let rest = after(rest, b"\n")?;
    read_each_entry(alloc, count, rest)
}

fn read_each_entry(alloc: Global, count: u32, bytes: &[u8]) -> Result<(Entries, &[u8]), Stop>
    ensures value { Gives entries_seen result (numbered_at entry_at 1 count bytes.now) }
    ensures each { IfOk result (λ x. length x.0.orders ≡ length x.0.rows.items) }
{
    let room = room(count, LEAST_ENTRY, bytes)?;
    let mut rows = Vec::with_capacity(alloc, room)?;
    let mut orders = Orders::new(alloc);
    let mut rest = bytes;
    'entries: for _ in 0..count {
        let (entry, after) = read_entry(alloc, rest)?;
        rows.push(entry.0)?;
        orders.push(&entry.1)?;
        rest = after;
    }
    Ok((Entries { rows, orders }, rest))
}

#[tactic(auto, unfolding(crate::specs::Reading::entry_at))]
fn read_entry(alloc: Global, bytes: &[u8]) -> Result<((u32, Vec<u32>), &[u8]), Stop>
    ensures { Gives entry_seen result (entry_at 0 bytes.now) }
{
    let rest = after(bytes, b"row ")?;
    let (row, rest) = read_number(rest)?;
    let rest = after(rest, b"\nwithout")?;
    let (order, rest) = read_numbers(alloc, rest)?;
    let rest = after(rest, b"\n")?;
    if order.is_empty() {
        return Err(Stop::Outside);
    }
    Ok(((row, order), rest))
}
