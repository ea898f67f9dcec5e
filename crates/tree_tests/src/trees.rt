// Trees over few columns, texts of trees and others, and the texts of canonical forms.
ghost use Rattle.std.specs.Prelude.{◌≤◌, IfOk};
ghost use Rattle.column_order.specs.declared.TheConstants.{COLUMN_BOUND};
ghost use Rattle.pq_tree.specs.PqTree.{column_count};

use crate::same::assert_same;
use column_order::COLUMN_BOUND;
use pq_tree::{NoMemory, PqTree, Tree, View};
use std::alloc::Global;
use std::process::Abort;

// The tree of a text over so many columns.
pub fn tree_of(rt: &impl Abort, alloc: Global, text: &str, columns: u32) -> Result<PqTree, NoMemory>
    ensures { IfOk result (λ tree. column_count tree ≤ COLUMN_BOUND) }
{
    assert!(rt; 1 <= columns && columns <= COLUMN_BOUND);
    let parsed = PqTree::parse(alloc, text.as_bytes(), columns)?;
    Ok(parsed.expect(rt, "the text of a tree"))
}

// The text of a tree.
fn text_of(alloc: Global, tree: &PqTree) -> Result<Vec<u8>, NoMemory> {
    let mut text = Vec::new(alloc);
    tree.print(&mut text)?;
    Ok(text)
}

// The text of the canonical form of a tree.
fn canonical_text(alloc: Global, tree: &PqTree) -> Result<Vec<u8>, NoMemory> {
    text_of(alloc, &tree.canonical(alloc)?)
}

// The tree has this text.
fn assert_text(rt: &impl Abort, alloc: Global, tree: &PqTree, text: &str) -> Result<(), NoMemory> {
    let printed = text_of(alloc, tree)?;
    assert_same(rt, printed.as_slice(), text.as_bytes(), text);
    Ok(())
}

// A text of a tree over so many columns, and the text of its canonical form.
const TEXTS: [(&str, u32, &str); 6] = [
    ("1", 1, "1"),
    ("(3 (2 1))", 3, "((1 2) 3)"),
    ("[3 1 2]", 3, "[2 1 3]"),
    ("[2 1 3]", 3, "[2 1 3]"),
    ("([1 2 3] 4 5)", 5, "([1 2 3] 4 5)"),
    ("[5 (1 4) [2 3 6]]", 6, "[[2 3 6] (1 4) 5]"),
];

// The tree has this text and so many columns, and its canonical form has that text.
fn assert_texts(
    rt: &impl Abort,
    alloc: Global,
    tree: &PqTree,
    case: &(&str, u32, &str),
) -> Result<(), NoMemory> {
    let (text, columns, canonical) = *case;
    let count = tree.frontier(alloc)?.len();
    assert_same(rt, count, columns as usize, text);
    assert_text(rt, alloc, tree, text)?;
    let printed = canonical_text(alloc, tree)?;
    assert_same(rt, printed.as_slice(), canonical.as_bytes(), text);
    Ok(())
}

#[test]
fn texts_and_canonical_forms(rt: HostRuntime) -> Result<(), NoMemory> {
    let alloc = rt.alloc();
    for case in &TEXTS {
        assert_texts(&rt, alloc, &tree_of(&rt, alloc, case.0, case.1)?, case)?;
    }
    Ok(())
}

// Whether the text is that of a tree over three columns.
fn is_tree_text(alloc: Global, text: &str) -> Result<bool, NoMemory> {
    Ok(PqTree::parse(alloc, text.as_bytes(), 3)?.is_some())
}

#[test]
fn no_texts_of_trees_over_three_columns(rt: HostRuntime) -> Result<(), NoMemory> {
    for text in &[
        "",
        "((1 2 3))",
        "[1 2]",
        "(1 2 2)",
        "(1 2)",
        "(1 2 03)",
        "(1 2  3)",
        "(1 2 3",
        "(1 2 3) ",
        "(1 2 3]",
        "(((((((((((((1",
    ] {
        assert_same(&rt, is_tree_text(rt.alloc(), text)?, false, text);
    }
    Ok(())
}

// The text of P-nodes within one another, 2,047 deep, over the columns 2,048 to 1 from left to right.
fn deep_text(alloc: Global) -> Result<String, NoMemory> {
    let mut text = "(".repeat(alloc, 2047)?;
    text.push_str("2048")?;
    for column in (1..2048u32).rev() {
        write!(text, " {column})")?;
    }
    Ok(text)
}

// The columns of the tree stand from 2,048 to 1.
fn assert_falling(rt: &impl Abort, alloc: Global, tree: &PqTree) -> Result<(), NoMemory> {
    let columns = tree.frontier(alloc)?;
    assert_same(rt, columns.len(), 2048, "columns of the deep tree");
    for i in 0..2048u32 {
        let column = columns.get(i as usize).copied();
        assert_same(rt, column, Some(2048 - i), "a column of the deep tree");
    }
    Ok(())
}

// The length of the text of a deep tree, and whether it begins with the lowest columns, ends with the highest, and closes
// all its brackets at the end.
fn rising(text: &[u8]) -> (usize, [bool; 3]) {
    let (nodes, ends) = text.split_at(text.len().saturating_sub(2047));
    let begins = nodes.starts_with(b"(1 (2 (3 (4 (5 ");
    let last = nodes.ends_with(b" (2046 (2047 2048");
    let brackets = ends.iter().all(|byte| *byte == b')');
    (text.len(), [begins, last, brackets])
}

// The deep tree is printed as the deep text, its columns fall from the first leaf on, and those of its canonical form rise:
// that has 7,085 digits, 2,047 spaces and 4,094 brackets.
fn assert_deep(rt: &impl Abort, alloc: Global, tree: &PqTree, text: &str) -> Result<(), NoMemory> {
    assert_text(rt, alloc, tree, text)?;
    assert_falling(rt, alloc, tree)?;
    let found = rising(&canonical_text(alloc, tree)?);
    assert_same(
        rt,
        found,
        (13_226, [true; 3]),
        "the canonical form of the deep tree",
    );
    Ok(())
}

#[test]
fn a_deep_tree(rt: HostRuntime) -> Result<(), NoMemory> {
    let text = deep_text(rt.alloc())?;
    let tree = tree_of(&rt, rt.alloc(), &text, 2048)?;
    assert_deep(&rt, rt.alloc(), &tree, &text)
}

// How many columns the tree has, and whether it is the leaf 1, by its root and by the tree that it hands over.
fn columns_and_leaf(tree: PqTree) -> (u32, [bool; 2]) {
    let columns = tree.columns();
    let root = matches!(tree.root().view(), View::Leaf(1));
    let handed_over = matches!(tree.into_tree().view(), View::Leaf(1));
    (columns, [root, handed_over])
}

// The universal tree over so many columns has this text.
fn assert_universal(
    rt: &impl Abort,
    alloc: Global,
    columns: u32,
    text: &str,
) -> Result<(), NoMemory>
    requires { (1 ≤ columns) × (columns ≤ COLUMN_BOUND) }
{
    let tree = PqTree::universal(alloc, columns)?;
    assert_text(rt, alloc, &tree, text)?;
    let is_leaf = columns == 1;
    assert_same(
        rt,
        columns_and_leaf(tree),
        (columns, [is_leaf, is_leaf]),
        text,
    );
    Ok(())
}

#[test]
fn universal_trees(rt: HostRuntime) -> Result<(), NoMemory> {
    assert_universal(&rt, rt.alloc(), 1, "1")?;
    assert_universal(&rt, rt.alloc(), 3, "(1 2 3)")
}

#[test]
fn a_tree_of_one_leaf(rt: HostRuntime) -> Result<(), NoMemory> {
    let tree = PqTree::from_tree(1, Tree::leaf(1));
    assert_text(&rt, rt.alloc(), &tree, "1")
}
