// A search tree of entries by rising key: look-ups, writes and removals, each by one way down. A node that is removed
// is handed out whole and a new entry comes as a node, so no call here takes memory.
ghost use Rattle.std.specs.Prelude.{◌≡◌, ◌+◌, ◌≤◌, ◌∷◌, ◌++◌, length, max, None, Some, is_some};
ghost use Rattle.std.specs.Option.{option_map};
ghost use Rattle.xb_words.specs.Table.{entry_after, first_of, value_at, with_value, without, IsRising};
ghost use Rattle.xbgp_maps.specs.Journals.{when_done};
ghost use Rattle.xbgp_maps.specs.Mappings.{key_cmp};
ghost use Rattle.xbgp_maps.specs.Trees.{entries_of, entries_below, entry_of, height_of, HaveWidth, IsAlone};
ghost use Rattle.xbgp_maps.specs.Trees.{IsBalanced, IsBalancedBelow, IsLow, IsSameOrOneMore, IsTaken};

use crate::key::order;
use crate::node::{Node, Tree, balanced};
use std::cmp::Ordering;
use xb_values::Buf;

/// The value at a key.
#[tactic(auto, using(crate::proofs::TreesLemmas::look_up))]
pub(crate) fn find<'t>(tree: &'t Tree, key: &[u8]) -> Option<&'t [u8]>
    requires { IsRising key_cmp (entries_of tree.now) }
    ensures { option_map (λ v. v.now) result ≡ value_at key_cmp (entries_of tree.now) key.now }
{
    let mut rest = tree;
    'nodes: while let Tree::Fork(node) = rest {
        let node = &**node;
        match order(key, &node.key) {
            Ordering::Less => rest = &node.left,
            Ordering::Greater => rest = &node.right,
            Ordering::Equal => return Some(node.value.as_slice()),
        }
    }
    None
}

// The key and the value of a node.
fn entry(node: &Node) -> (&[u8], &[u8])
    ensures { (result.0.now, result.1.now) ≡ entry_of node.now }
{
    (node.key.as_slice(), node.value.as_slice())
}

/// The entry of the least key.
#[tactic(auto, using(crate::proofs::TreesLemmas::walk))]
pub(crate) fn first(tree: &Tree) -> Option<(&[u8], &[u8])>
    ensures { option_map (λ e. (e.0.now, e.1.now)) result ≡ first_of (entries_of tree.now) }
{
    match tree {
        Tree::Leaf => None,
        Tree::Fork(node) => {
            let node = &**node;
            match first(&node.left) {
                None => Some(entry(node)),
                found => found,
            }
        }
    }
}

/// The entry of the least key that is greater than this one.
#[tactic(auto, using(crate::proofs::TreesLemmas::walk))]
pub(crate) fn first_after<'t>(tree: &'t Tree, key: &[u8]) -> Option<(&'t [u8], &'t [u8])>
    requires { IsRising key_cmp (entries_of tree.now) }
    ensures { option_map (λ e. (e.0.now, e.1.now)) result ≡ entry_after key_cmp (entries_of tree.now) (Some key.now) }
{
    let mut rest = tree;
    let mut found = None;
    'nodes: while let Tree::Fork(node) = rest {
        let node = &**node;
        match order(key, &node.key) {
            Ordering::Less => {
                found = Some(entry(node));
                rest = &node.left;
            }
            _ => rest = &node.right,
        }
    }
    found
}

/// Overwrites octets with others of the same length.
pub(crate) fn copy_over(octets: &mut Vec<u8>, others: &[u8])
    requires { length octets.old.items ≡ length others.now }
    ensures { octets.new.items ≡ others.now }
{
    octets.as_mut_slice().copy_from_slice(others);
}

/// Replaces the value at a key, if the key is there, which is returned.
#[tactic(auto, using(crate::proofs::TreesLemmas::over))]
pub(crate) fn overwrite(tree: &mut Tree, key: &[u8], value: &[u8]) -> bool
    requires rising { IsRising key_cmp (entries_of tree.old) }
    requires widths { HaveWidth (length value.now) (entries_of tree.old) }
    requires balanced { IsBalanced tree.old }
    ensures there { result ≡ is_some (value_at key_cmp (entries_of tree.old) key.now) }
    ensures entries { entries_of tree.new
        ≡ when_done result (with_value key_cmp (entries_of tree.old) key.now value.now) (entries_of tree.old) }
    ensures balanced { IsBalanced tree.new }
    ensures height { height_of tree.new ≡ height_of tree.old }
{
    match tree {
        Tree::Leaf => false,
        Tree::Fork(node) => {
            let node = &mut **node;
            match order(key, &node.key) {
                Ordering::Less => overwrite(&mut node.left, key, value),
                Ordering::Greater => overwrite(&mut node.right, key, value),
                Ordering::Equal => {
                    copy_over(&mut node.value, value);
                    true
                }
            }
        }
    }
}

/// Replaces the value at a key as `overwrite` does, and copies the value before into a buffer.
#[tactic(auto, using(crate::proofs::TreesLemmas::over))]
pub(crate) fn replace(tree: &mut Tree, key: &[u8], value: &[u8], before: &mut Buf) -> bool
    requires rising { IsRising key_cmp (entries_of tree.old) }
    requires widths { HaveWidth (length value.now) (entries_of tree.old) }
    requires room { length value.now ≤ before.old.capacity }
    requires balanced { IsBalanced tree.old }
    ensures before { value_at key_cmp (entries_of tree.old) key.now ≡ when_done result (Some before.new.octets) None }
    ensures capacity { before.new.capacity ≡ before.old.capacity }
    ensures entries { entries_of tree.new
        ≡ when_done result (with_value key_cmp (entries_of tree.old) key.now value.now) (entries_of tree.old) }
    ensures balanced { IsBalanced tree.new }
    ensures height { height_of tree.new ≡ height_of tree.old }
{
    match tree {
        Tree::Leaf => false,
        Tree::Fork(node) => {
            let node = &mut **node;
            match order(key, &node.key) {
                Ordering::Less => replace(&mut node.left, key, value, before),
                Ordering::Greater => replace(&mut node.right, key, value, before),
                Ordering::Equal => {
                    before.replace(&node.value);
                    copy_over(&mut node.value, value);
                    true
                }
            }
        }
    }
}

// The tree with one more node.
#[tactic(auto, using(crate::proofs::TreesLemmas::write))]
fn with_node(tree: Tree, new: Box<Node>) -> Tree
    requires rising { IsRising key_cmp (entries_of tree) }
    requires alone { IsAlone new.value }
    requires absent { value_at key_cmp (entries_of tree) new.value.key.items ≡ None }
    requires balanced { IsBalanced tree }
    requires low { IsLow (height_of tree) }
    ensures entries { entries_of result
        ≡ with_value key_cmp (entries_of tree) new.value.key.items new.value.value.items }
    ensures balanced { IsBalanced result }
    ensures height { IsSameOrOneMore (height_of tree) (height_of result) }
{
    match tree {
        // the node still has the height it had before it was removed
        Tree::Leaf => Tree::Fork(balanced(new)),
        Tree::Fork(mut node) => {
            match order(&new.key, &node.key) {
                Ordering::Less => {
                    node.left = with_node(node.left.take(), new);
                    Tree::Fork(balanced(node))
                }
                _ => {
                    node.right = with_node(node.right.take(), new);
                    Tree::Fork(balanced(node))
                }
            }
        }
    }
}

/// Inserts a node that is alone, at a key that is not there.
pub(crate) fn insert(tree: &mut Tree, new: Box<Node>)
    requires rising { IsRising key_cmp (entries_of tree.old) }
    requires alone { IsAlone new.value }
    requires absent { value_at key_cmp (entries_of tree.old) new.value.key.items ≡ None }
    requires balanced { IsBalanced tree.old }
    requires low { IsLow (height_of tree.old) }
    ensures entries { entries_of tree.new
        ≡ with_value key_cmp (entries_of tree.old) new.value.key.items new.value.value.items }
    ensures balanced { IsBalanced tree.new }
{
    *tree = with_node(tree.take(), new);
}

// Removes the node of the least key, which then is alone, and returns it with the rest.
fn without_least(mut top: Box<Node>) -> (Box<Node>, Tree)
    requires balanced { IsBalancedBelow top.value }
    requires low { IsLow top.value.height }
    ensures entries { entries_below top.value ≡ entry_of result.0.value ∷ entries_of result.1 }
    ensures alone { IsAlone result.0.value }
    ensures balanced { IsBalanced result.1 }
    ensures height { IsSameOrOneMore (height_of result.1) top.value.height }
{
    match top.left.take() {
        Tree::Leaf => {
            let rest = top.right.take();
            (top, rest)
        }
        Tree::Fork(left) => {
            let (least, rest) = without_least(left);
            top.left = rest;
            (least, Tree::Fork(balanced(top)))
        }
    }
}

// One tree of two: all keys of the first are below those of the second.
fn joined(left: Tree, right: Tree) -> Tree
    requires is_left { IsBalanced left }
    requires is_right { IsBalanced right }
    requires left { height_of left ≤ height_of right + 1 }
    requires right { height_of right ≤ height_of left + 1 }
    requires low { IsLow (height_of left) × IsLow (height_of right) }
    ensures entries { entries_of result ≡ entries_of left ++ entries_of right }
    ensures balanced { IsBalanced result }
    ensures height { IsSameOrOneMore (max (height_of left) (height_of right)) (height_of result) }
{
    match right {
        Tree::Leaf => left,
        Tree::Fork(node) => {
            let (mut top, rest) = without_least(node);
            top.left = left;
            top.right = rest;
            Tree::Fork(balanced(top))
        }
    }
}

// The tree without a key, and the node that had it.
#[tactic(auto, using(crate::proofs::TreesLemmas::removal))]
fn without_node(tree: Tree, key: &[u8]) -> (Tree, Option<Box<Node>>)
    requires rising { IsRising key_cmp (entries_of tree) }
    requires balanced { IsBalanced tree }
    requires low { IsLow (height_of tree) }
    ensures entries { entries_of result.0 ≡ without key_cmp (entries_of tree) key.now }
    ensures balanced { IsBalanced result.0 }
    ensures height { IsSameOrOneMore (height_of result.0) (height_of tree) }
    ensures taken { IsTaken (entries_of tree) key.now (option_map (λ n. n.value) result.1) }
{
    match tree {
        Tree::Leaf => (Tree::Leaf, None),
        Tree::Fork(mut node) => match order(key, &node.key) {
            Ordering::Less => {
                let (rest, taken) = without_node(node.left.take(), key);
                node.left = rest;
                (Tree::Fork(balanced(node)), taken)
            }
            Ordering::Greater => {
                let (rest, taken) = without_node(node.right.take(), key);
                node.right = rest;
                (Tree::Fork(balanced(node)), taken)
            }
            Ordering::Equal => {
                let left = node.left.take();
                let right = node.right.take();
                (joined(left, right), Some(node))
            }
        },
    }
}

/// Removes the node at a key and returns it, alone, if there is one.
pub(crate) fn remove(tree: &mut Tree, key: &[u8]) -> Option<Box<Node>>
    requires rising { IsRising key_cmp (entries_of tree.old) }
    requires balanced { IsBalanced tree.old }
    requires low { IsLow (height_of tree.old) }
    ensures entries { entries_of tree.new ≡ without key_cmp (entries_of tree.old) key.now }
    ensures balanced { IsBalanced tree.new }
    ensures taken { IsTaken (entries_of tree.old) key.now (option_map (λ n. n.value) result) }
{
    let (rest, taken) = without_node(tree.take(), key);
    *tree = rest;
    taken
}
