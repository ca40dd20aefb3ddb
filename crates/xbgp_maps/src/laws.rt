//! Laws of the definitions. Each is the contract of a function that does nothing.
ghost use Rattle.std.specs.Prelude.{◌≤◌, length};
ghost use Rattle.xbgp_maps.specs.declared.node.Tree.{Tree};
ghost use Rattle.xbgp_maps.specs.Trees.{entries_of, height_of, IsBalanced};

use crate::limits::{MAX_ENTRIES, MAX_LEVELS};

/// A balanced tree of as many entries as a map may have has at most `MAX_LEVELS` levels. Every map keeps its tree
/// balanced: that is an invariant of the private type of one map.
pub fn trees_are_low()
    ensures { (tree : Tree) → IsBalanced tree → length (entries_of tree) ≤ MAX_ENTRIES → height_of tree ≤ MAX_LEVELS }
{}
