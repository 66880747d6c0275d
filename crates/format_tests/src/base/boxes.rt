//! Trees of boxes and lists.
use std::alloc::Global;
use std::test::Fail;
use ts_base::{Boxed, OutOfMemory, Sequence};

// A type that holds itself, in a box and in a list.
#[derive(Debug, Drop, PartialEq, Eq)]
enum Tree {
    Leaf(u8),
    Twig(Boxed<Tree>),
    Fork(Sequence<Tree>),
}

fn fork(alloc: Global, number: u8) -> Result<Tree, OutOfMemory> {
    let mut trees = Sequence::new(alloc);
    trees.push(Tree::Leaf(1))?;
    trees.push(Tree::Twig(Boxed::new(alloc, Tree::Leaf(number))?))?;
    Ok(Tree::Fork(trees))
}

#[test]
fn trees_are_equal_where_their_leaves_are(rt: HostRuntime) -> Result<(), Fail> {
    let alloc = rt.alloc();
    assert_eq!(rt; fork(alloc, 2)?, fork(alloc, 2)?);
    assert!(rt; fork(alloc, 2)? != fork(alloc, 3)?);
    assert_eq!(rt; Boxed::new(alloc, 7)?.into_inner(), 7);
    Ok(())
}
