//! The leaves and the text of a tree, appended piece by piece.

ghost use Rattle.std.specs.Prelude.{◌≡◌, ◌++◌, map, IfOk, OnOk, OnErr};
ghost use Rattle.plain_text.specs.Pieces.{Extends};
ghost use Rattle.pq_tree.specs.Outline.{leaves};
ghost use Rattle.pq_tree.specs.Proper.{outline_of, forest};
ghost use Rattle.pq_tree.specs.Text.{tree_text, forest_text, gap};

use crate::{NoMemory, Tree};
use plain_text::push_number;

/// Appends the columns from left to right.
pub fn push_leaves(tree: &Tree, columns: &mut Vec<u32>) -> Result<(), NoMemory>
    ensures { OnOk result (columns.new.items ≡ columns.old.items ++ leaves (outline_of tree.now)) }
{
    match tree {
        Tree::Leaf(column) => columns.push(*column)?,
        Tree::P(children) | Tree::Q(children) => {
            for child in children {
                push_leaves(child, columns)?;
            }
        }
    }
    Ok(())
}

/// Appends the text of the tree.
#[cycle(write)]
pub fn push_tree(tree: &Tree, text: &mut Vec<u8>) -> Result<(), NoMemory>
    ensures ok { OnOk result (text.new.items ≡ text.old.items ++ tree_text (outline_of tree.now)) }
    ensures err { OnErr result (Extends text.old.items text.new.items) }
{
    match tree {
        Tree::Leaf(column) => push_number(text, u64::from(*column)),
        Tree::P(children) => {
            text.push(b'(')?;
            push_trees(children, text)?;
            text.push(b')')?;
            Ok(())
        }
        Tree::Q(children) => {
            text.push(b'[')?;
            push_trees(children, text)?;
            text.push(b']')?;
            Ok(())
        }
    }
}

// Appends the texts of the trees with one space between them.
#[cycle(write)]
fn push_trees(trees: &[Tree], text: &mut Vec<u8>) -> Result<(), NoMemory>
    ensures ok { OnOk result (text.new.items ≡ text.old.items ++ forest_text (forest (map outline_of trees.now))) }
    ensures err { OnErr result (Extends text.old.items text.new.items) }
{
    for (i, tree) in trees.iter().enumerate() {
        push_gap(i, text)?;
        push_tree(tree, text)?;
    }
    Ok(())
}

// Appends a space before any tree but the first, which has the index 0.
fn push_gap(i: usize, text: &mut Vec<u8>) -> Result<(), NoMemory>
    ensures ok { OnOk result (text.new.items ≡ text.old.items ++ gap i) }
    ensures err { OnErr result (text.new.items ≡ text.old.items) }
{
    if i > 0 {
        text.push(b' ')?;
    }
    Ok(())
}
