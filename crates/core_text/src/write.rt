// The text of a core, line by line.
ghost use Rattle.std.specs.Prelude.{◌≡◌, ◌++◌, flat_map, OnOk, OnErr, codes};
ghost use Rattle.plain_text.specs.Pieces.{Extends};
ghost use Rattle.text_parts.specs.Text.{kind_word, number_word, counted_text};
ghost use Rattle.core_text.specs.Texts.{entry_text, entries, core_text};

use crate::text::CoreText;
use plain_text::push_number;
use row_model::NoMemory;
use text_parts::{print_cycle, push, push_word, push_words, word_of};

/// Appends the text of a core.
///
/// # Errors
///
/// `NoMemory`. What `text` held is still its front.
pub fn print_core(t: &CoreText, text: &mut Vec<u8>) -> Result<(), NoMemory>
    ensures ok { OnOk result (text.new.items ≡ text.old.items ++ core_text t.now) }
    ensures err { OnErr result (Extends text.old.items text.new.items) }
{
    push_head(t, text)?;
    push_entries(t, text)?;
    print_cycle(t.lines(), text)?;
    push(text, b"end\n")
}

// The lines before the first row, but for the number of rows.
fn push_head(t: &CoreText, text: &mut Vec<u8>) -> Result<(), NoMemory>
    ensures ok { OnOk result (text.new.items ≡ text.old.items
        ++ (codes "pq-core 1\nkind " ++ (kind_word t.now.kind ++ (codes "\ncolumns" ++ (number_word t.now.columns ++ codes "\ncore "))))) }
    ensures err { OnErr result (Extends text.old.items text.new.items) }
{
    push(text, b"pq-core 1\nkind ")?;
    push(text, word_of(t.kind))?;
    push(text, b"\ncolumns")?;
    push_word(u64::from(t.columns), text)?;
    push(text, b"\ncore ")
}

// The number of rows, and each row with its order.
fn push_entries(t: &CoreText, text: &mut Vec<u8>) -> Result<(), NoMemory>
    ensures ok { OnOk result (text.new.items ≡ text.old.items ++ counted_text entry_text (entries t.now.parts)) }
    ensures err { OnErr result (Extends text.old.items text.new.items) }
{
    push_number(text, t.rows.len() as u64)?;
    push(text, b"\n")?;
    push_each_entry(t, text)
}

fn push_each_entry(t: &CoreText, text: &mut Vec<u8>) -> Result<(), NoMemory>
    ensures ok { OnOk result (text.new.items ≡ text.old.items ++ flat_map entry_text (entries t.now.parts)) }
    ensures err { OnErr result (Extends text.old.items text.new.items) }
{
    for (i, row) in t.rows().iter().enumerate() {
        push_entry(*row, t.orders.get(i), text)?;
    }
    Ok(())
}

// `row R`, and `without` with the numbers of the order.
fn push_entry(row: u32, order: &[u32], text: &mut Vec<u8>) -> Result<(), NoMemory>
    ensures ok { OnOk result (text.new.items ≡ text.old.items ++ entry_text (row, order.now)) }
    ensures err { OnErr result (Extends text.old.items text.new.items) }
{
    push(text, b"row ")?;
    push_number(text, u64::from(row))?;
    push(text, b"\nwithout")?;
    push_words(order, text)?;
    push(text, b"\n")
}
