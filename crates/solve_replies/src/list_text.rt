// The text of a list of orders.
ghost use Rattle.std.specs.Prelude.{◌≡◌, ◌+◌, ◌*◌, ◌≤◌, ◌++◌, IfOk, OnOk, codes};
ghost use Rattle.solve_replies.specs.Lists.{order_line, orders_text, more_line, list_text};

use crate::NoMemory;
use order_list::Orders;
use plain_text::push_number;
use row_model::Kind;
use std::alloc::Global;
use text_parts::{push, push_words};
use verdict_text::{Columns, print_subject};

// Bytes of a line for each column where there are at most 9,999: a space and up to four digits.
const ROOM_PER_COLUMN: usize = 5;

// Bytes of the line for its word and its end.
const ROOM_PER_ORDER: usize = 6;
// Bytes of the lines that list no order.
const ROOM_BESIDE: usize = 96;

/// The text of a list of orders of so many columns.
pub fn printed_list(
    alloc: Global,
    kind: Kind,
    columns: u32,
    found: &Orders,
) -> Result<Vec<u8>, NoMemory>
    ensures { IfOk result (λ text.
        text.items ≡ list_text kind columns found.now.orders found.now.more) }
{
    let mut text = Vec::with_capacity(alloc, room(columns, found.len()))?;
    print_list(kind, columns, found, &mut text)?;
    Ok(text)
}

// The lines of the list.
fn print_list(kind: Kind, columns: u32, found: &Orders, text: &mut Vec<u8>) -> Result<(), NoMemory>
    ensures { OnOk result (text.new.items ≡ text.old.items ++
        list_text kind columns found.now.orders found.now.more) }
{
    push(text, b"pq-list 1\n")?;
    print_subject(kind, Columns::One(columns), text)?;
    print_orders(found, text)?;
    print_end(found.more(), text)
}

// How many bytes the text has at most where there are at most 9,999 columns.
fn room(columns: u32, orders: u32) -> usize
    ensures { result ≤ (ROOM_PER_COLUMN * columns + ROOM_PER_ORDER) * orders + ROOM_BESIDE }
{
    let line = ROOM_PER_COLUMN * columns as usize + ROOM_PER_ORDER;
    line.saturating_mul(orders as usize)
        .saturating_add(ROOM_BESIDE)
}

// The number of orders, and a line for each.
fn print_orders(found: &Orders, text: &mut Vec<u8>) -> Result<(), NoMemory>
    ensures { OnOk result (text.new.items ≡ text.old.items ++ orders_text found.now.orders) }
{
    push(text, b"orders ")?;
    push_number(text, u64::from(found.len()))?;
    push(text, b"\n")?;
    for i in 0..found.len() {
        print_order(found.order(i + 1), text)?;
    }
    Ok(())
}

// The line of an order.
fn print_order(order: &[u32], text: &mut Vec<u8>) -> Result<(), NoMemory>
    ensures { OnOk result (text.new.items ≡ text.old.items ++ order_line order.now) }
{
    push(text, b"order")?;
    push_words(order, text)?;
    push(text, b"\n")
}

// Whether there are others, and the last line.
fn print_end(more: bool, text: &mut Vec<u8>) -> Result<(), NoMemory>
    ensures { OnOk result (text.new.items ≡ text.old.items ++ (more_line more ++ codes "end\n")) }
{
    if more {
        push(text, b"more yes\nend\n")
    } else {
        push(text, b"more no\nend\n")
    }
}
