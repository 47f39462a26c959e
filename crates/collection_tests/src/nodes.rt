//! Trees whose nodes are in a list, written and read.

use bincode::error::DecodeError;
use own_types::tree::Tree;
use std::alloc::Global;
use test_helpers::checks::{either, fault_of, read_if_kept};

/// The word of a root 10 with the children 20 and 30, of which the first has the child 40.
const TREE: [u8; 12] = [4, 10, 2, 1, 2, 20, 1, 3, 30, 0, 40, 0];

#[test]
fn keeps_trees_and_walks_one(rt: HostRuntime) {
    let alloc = rt.alloc();
    let Some(tree) = read_if_kept::<Tree>(alloc, &TREE, &TREE) else {
        assert!(rt; false);
        return;
    };
    let Some(values) = either(tree.depth_first(alloc), tree.depth_first(alloc)) else {
        assert!(rt; false);
        return;
    };
    assert!(rt; values.as_slice() == [10, 20, 40, 30].as_slice());
}

/// Whether these nodes are refused as no tree.
fn is_no_tree(alloc: Global, nodes: &[u8]) -> bool {
    let Some(DecodeError::Other(told)) = fault_of::<Tree>(alloc, nodes) else {
        return false;
    };
    told.as_str() == "no tree"
}

/// No node, a child that is its own parent, one that comes before its parent, one past the end, one that is named
/// twice, and one that none names.
#[test]
fn refuses_what_is_no_tree(rt: HostRuntime) {
    for nodes in [
        [0].as_slice(),
        &[1, 10, 1, 0],
        &[2, 10, 1, 1, 20, 1, 0],
        &[1, 10, 1, 1],
        &[2, 10, 2, 1, 1, 20, 0],
        &[2, 10, 0, 20, 0],
    ] {
        assert!(rt; is_no_tree(rt.alloc(), nodes));
    }
}
