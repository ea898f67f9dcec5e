// The trees of new arenas.
ghost use Rattle.std.specs.Prelude.{◌≤◌};

use column_order::COLUMN_BOUND;
use pq_arena::{Arena, NoMemory};
use pq_tree::PqTree;
use std::alloc::Global;
use std::test::Fail;

// The tree of a new arena.
fn universal_tree(alloc: Global, c: u32) -> Result<PqTree, NoMemory>
    requires from { 1 ≤ c }
    requires to { c ≤ COLUMN_BOUND }
{
    let arena = Arena::new(alloc, c)?;
    arena.to_tree(alloc)
}

#[test]
fn universal_trees(rt: HostRuntime) -> Result<(), Fail> {
    let mut text = Vec::new(rt.alloc());
    universal_tree(rt.alloc(), 1)?.print(&mut text)?;
    assert_eq!(rt; text.as_slice(), b"1".as_slice());
    text.clear();
    universal_tree(rt.alloc(), 3)?.print(&mut text)?;
    assert_eq!(rt; text.as_slice(), b"(1 2 3)".as_slice());
    assert_eq!(rt; universal_tree(rt.alloc(), 2048)?.columns(), 2048);
    Ok(())
}
