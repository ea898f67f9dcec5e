// The tree in the bytes of a file.
ghost use Rattle.std.specs.Prelude.{◌≡◌, ◌≤◌, IfOk, length};
ghost use Rattle.column_order.specs.declared.TheConstants.{COLUMN_BOUND};
ghost use Rattle.row_model.specs.declared.TheConstants.{MAX_FILE_BYTES};
ghost use Rattle.pq_tree.specs.PqTree.{column_count, outline};
ghost use Rattle.command_input.specs.Instances.{map_read, IfRead};
ghost use Rattle.command_input.specs.TreeFiles.{end_length, without_end, tree_file};

use crate::NoMemory;
use pq_tree::PqTree;
use row_model::{Read, Refusal, code};
use std::alloc::Global;
use text_lines::without_mark;

/// The tree over 1 to c in the bytes of a file that is not too long, or their refusal.
///
/// # Errors
///
/// `NoMemory`.
pub fn tree_in(alloc: Global, c: u32, bytes: &[u8]) -> Result<Read<PqTree>, NoMemory>
    requires { (1 ≤ c) × (c ≤ COLUMN_BOUND) }
    ensures value { IfOk result (λ made.
        length bytes.now ≤ MAX_FILE_BYTES → map_read outline made ≡ tree_file c bytes.now) }
    ensures columns { IfOk result (λ made. IfRead made (λ t. column_count t ≡ c)) }
{
    match PqTree::parse(alloc, without_end(without_mark(bytes)), c)? {
        Some(tree) => Ok(Read::Ok(tree)),
        None => Ok(Read::Refused(Refusal {
            code: code::TREE,
            line: 0,
        })),
    }
}

// A text without the end of line at its end.
fn without_end(text: &[u8]) -> &[u8]
    ensures { result.now ≡ without_end text.now }
{
    &text[..text.len() - end_length(text)]
}

// How many bytes the end of line at the end of a text has.
fn end_length(text: &[u8]) -> usize
    ensures length { result ≡ end_length text.now }
    ensures within { result ≤ length text.now }
{
    let count = text.len();
    if count == 0 || text[count - 1] != b'\n' {
        0
    } else if count > 1 && text[count - 2] == b'\r' {
        2
    } else {
        1
    }
}
