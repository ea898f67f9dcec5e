// The text of a unit model.
ghost use Rattle.std.specs.Prelude.{◌≡◌, [], ◌∷◌, ◌++◌, OnOk, OnErr};
ghost use Rattle.std.specs.Fmt.{decimal};
ghost use Rattle.plain_text.specs.Pieces.{Extends};
ghost use Rattle.unit_model.specs.Text.{IsUnit, unit_text, unit_head, left_line, left_lines};

use crate::NoMemory;
use crate::text::UnitText;
use plain_text::push_number;

/// Appends the text of a unit model.
///
/// # Errors
///
/// `NoMemory`. What `text` held is still its front.
#[tactic(auto, unfolding(crate::specs::Text::unit_text))]
pub fn print_unit(t: &UnitText, text: &mut Vec<u8>) -> Result<(), NoMemory>
    requires { IsUnit t.now }
    ensures ok { OnOk result (text.new.items ≡ text.old.items ++ unit_text t.now) }
    ensures err { OnErr result (Extends text.old.items text.new.items) }
{
    push_head(t.vertices(), t.length(), text)?;
    push_lefts(t.lefts(), text)?;
    push(text, b"end\n")
}

// Appends the lines before those of the vertices.
fn push_head(vertices: u32, length: u64, text: &mut Vec<u8>) -> Result<(), NoMemory>
    ensures ok { OnOk result (text.new.items ≡ text.old.items ++ unit_head vertices length) }
    ensures err { OnErr result (Extends text.old.items text.new.items) }
{
    push_up_to_end(b"pq-unit 1\nvertices ", u64::from(vertices), text)?;
    push_up_to_end(b"length ", length, text)
}

// Appends a word and a number, up to the end of the line.
fn push_up_to_end(word: &[u8], n: u64, text: &mut Vec<u8>) -> Result<(), NoMemory>
    ensures ok { OnOk result (text.new.items ≡ text.old.items ++ (word.now ++ (decimal n ++ 10 ∷ []))) }
    ensures err { OnErr result (Extends text.old.items text.new.items) }
{
    push(text, word)?;
    push_number(text, n)?;
    push(text, b"\n")
}

// Appends bytes.
fn push(text: &mut Vec<u8>, bytes: &[u8]) -> Result<(), NoMemory>
    ensures ok { OnOk result (text.new.items ≡ text.old.items ++ bytes.now) }
    ensures err { OnErr result (text.new.items ≡ text.old.items) }
{
    text.extend_from_slice(bytes)
}

// Appends a line for each vertex.
fn push_lefts(lefts: &[u64], text: &mut Vec<u8>) -> Result<(), NoMemory>
    ensures ok { OnOk result (text.new.items ≡ text.old.items ++ left_lines 1 lefts.now) }
    ensures err { OnErr result (Extends text.old.items text.new.items) }
{
    for (i, left) in lefts.iter().enumerate() {
        push_left(i as u64 + 1, *left, text)?;
    }
    Ok(())
}

// Appends the line of one vertex: its number and its left end.
fn push_left(i: u64, left: u64, text: &mut Vec<u8>) -> Result<(), NoMemory>
    ensures ok { OnOk result (text.new.items ≡ text.old.items ++ left_line i left) }
    ensures err { OnErr result (Extends text.old.items text.new.items) }
{
    push(text, b"unit ")?;
    push_number(text, i)?;
    push_up_to_end(b" ", left, text)
}
