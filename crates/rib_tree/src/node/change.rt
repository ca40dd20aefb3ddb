// Writes and removals: each goes down one path, and changes the nodes in place.
ghost use Rattle.std.specs.Prelude.{◌≡◌, ◌+◌, ◌-◌, ◌^◌, ◌<◌, ◌≤◌, ◌++◌, [], None};
ghost use Rattle.std.specs.Prelude.{IsTrue, IsFalse, IfSome, IfOk, IfErr, OnOk, OnErr};
ghost use Rattle.xb_words.specs.Table.{value_at, with_value, without, IsRising};
ghost use Rattle.xb_values.specs.Prefixes.{prefix_cmp};
ghost use Rattle.rib_tree.specs.declared.node.Node.TheVariants.{Fork};
ghost use Rattle.rib_tree.specs.Blocks.{IsIn, IsPart};
ghost use Rattle.rib_tree.specs.Trees.{entries_of, AllIn, HasRoom, IsTree};

use super::{Halves, Node, Subtree};
use crate::block::Block;
use crate::page::{PAGE, Page, how_many_below, put, split, take_out, value_in};
use std::alloc::Global;
use xb_values::{Prefix, Steps};

// The smallest part of a block that has the entries of a page and a prefix. None if it has one address alone.
#[tactic(auto, using(crate::proofs::BlockLemmas::parts))]
fn common<V>(page: &Page<V>, block: Block, key: Prefix) -> Option<Block>
    requires rising { IsRising prefix_cmp page.now.items }
    requires within { AllIn block.first block.bits page.now.items }
    requires key { IsIn block.first block.bits key }
    ensures part { IfSome result (λ b. IsPart block.first block.bits b.first b.bits) }
    ensures some { IfSome result (λ b. 0 < b.bits) }
    ensures within { IfSome result (λ b. AllIn b.first b.bits page.now.items) }
    ensures key { IfSome result (λ b. IsIn b.first b.bits key) }
{
    if block.is_one() {
        return None;
    }
    let below = how_many_below(page, block.middle());
    if key.addr() < block.middle() {
        if below == page.len() {
            common(page, block.low(), key)
        } else {
            Some(block)
        }
    } else if below == 0 {
        common(page, block.high(), key)
    } else {
        Some(block)
    }
}

// A page as two, for the halves of a block. An error is want of memory, and returns the page as it was.
fn halved<V: Drop>(
    alloc: Global,
    mut page: Page<V>,
    block: Block,
) -> Result<Box<Halves<V>>, Page<V>>
    requires some { 0 < block.bits }
    requires rising { IsRising prefix_cmp page.items }
    requires within { AllIn block.first block.bits page.items }
    ensures block { IfOk result (λ h. h.value.block ≡ block) }
    ensures entries { IfOk result (λ h. entries_of h.value.low.node ++ entries_of h.value.high.node ≡ page.items) }
    ensures low { IfOk result (λ h. IsTree block.first (block.bits - 1) h.value.low.node) }
    ensures high { IfOk result (λ h.
        IsTree (block.first + 2 ^ (block.bits - 1)) (block.bits - 1) h.value.high.node) }
    ensures err { IfErr result (λ p. p.items ≡ page.items) }
{
    let halves = Halves {
        block,
        low: Subtree::empty(alloc),
        high: Subtree::empty(alloc),
    };
    let Ok(mut halves) = Box::new(alloc, halves) else {
        return Err(page);
    };
    match split(&mut page, block.middle()) {
        Err(_) => Err(page),
        Ok(others) => {
            halves.low = Subtree::of(Node::Leaf(page));
            halves.high = Subtree::of(Node::Leaf(others));
            Ok(halves)
        }
    }
}

// A fork of a larger block over another fork, with an empty leaf for a prefix. An error is want of memory.
fn raised<V: Drop>(
    alloc: Global,
    halves: Box<Halves<V>>,
    block: Block,
    key: Prefix,
) -> Result<Box<Halves<V>>, Box<Halves<V>>>
    requires some { 0 < block.bits }
    requires low_half { block.first + 2 ^ (block.bits - 1) ≤ key.addr
        → IsTree block.first (block.bits - 1) (Fork halves) }
    requires high_half { key.addr < block.first + 2 ^ (block.bits - 1)
        → IsTree (block.first + 2 ^ (block.bits - 1)) (block.bits - 1) (Fork halves) }
    ensures block { IfOk result (λ h. h.value.block ≡ block) }
    ensures entries { IfOk result (λ h.
        entries_of h.value.low.node ++ entries_of h.value.high.node ≡ entries_of (Fork halves)) }
    ensures low { IfOk result (λ h. IsTree block.first (block.bits - 1) h.value.low.node) }
    ensures high { IfOk result (λ h.
        IsTree (block.first + 2 ^ (block.bits - 1)) (block.bits - 1) h.value.high.node) }
    ensures err { IfErr result (λ h. h ≡ halves) }
{
    let raised = Halves {
        block,
        low: Subtree::empty(alloc),
        high: Subtree::empty(alloc),
    };
    let Ok(mut raised) = Box::new(alloc, raised) else {
        return Err(halves);
    };
    if key.addr() < block.middle() {
        raised.high = Subtree::of(Node::Fork(halves));
    } else {
        raised.low = Subtree::of(Node::Fork(halves));
    }
    Ok(raised)
}

// A leaf, or a fork in its place that has room for a prefix. An error is want of memory.
fn leaf_with_room<V: Drop>(
    alloc: Global,
    page: Page<V>,
    block: Block,
    key: Prefix,
) -> Result<Node<V>, Node<V>>
    requires rising { IsRising prefix_cmp page.items }
    requires within { AllIn block.first block.bits page.items }
    requires key { IsIn block.first block.bits key }
    ensures entries { IfOk result (λ n. entries_of n ≡ page.items) }
    ensures tree { IfOk result (λ n. IsTree block.first block.bits n) }
    ensures room { IfOk result (λ n. HasRoom key n) }
    ensures err { IfErr result (λ n. entries_of n ≡ page.items) }
    ensures tree_err { IfErr result (λ n. IsTree block.first block.bits n) }
{
    match common(&page, block, key) {
        None => Ok(Node::Leaf(page)),
        Some(part) => match halved(alloc, page, part) {
            Ok(halves) => Ok(Node::Fork(halves)),
            Err(page) => Err(Node::Leaf(page)),
        },
    }
}

// A fork whose block has a prefix: this one, or one over it. An error is want of memory.
fn fork_with_room<V: Drop>(
    alloc: Global,
    halves: Box<Halves<V>>,
    block: Block,
    key: Prefix,
) -> Result<Node<V>, Node<V>>
    requires tree { IsTree block.first block.bits (Fork halves) }
    requires key { IsIn block.first block.bits key }
    ensures entries { IfOk result (λ n. entries_of n ≡ entries_of (Fork halves)) }
    ensures tree { IfOk result (λ n. IsTree block.first block.bits n) }
    ensures room { IfOk result (λ n. HasRoom key n) }
    ensures err { IfErr result (λ n. n ≡ Fork halves) }
{
    let inner = halves.block;
    if inner.has(key) {
        return Ok(Node::Fork(halves));
    }
    match raised(alloc, halves, block.common(inner, key), key) {
        Ok(halves) => Ok(Node::Fork(halves)),
        Err(halves) => Err(Node::Fork(halves)),
    }
}

// Whether an entry of a prefix can go into a leaf, or below a fork.
fn has_room<V>(tree: &Subtree<V>, block: Block, key: Prefix) -> bool
    requires { IsTree block.first block.bits tree.now.node }
    ensures room { IsTrue result → HasRoom key tree.now.node }
    ensures absent { IsFalse result → value_at prefix_cmp (entries_of tree.now.node) key ≡ None }
{
    let _ = block;
    match tree.read(&mut Steps::start()) {
        Node::Leaf(page) => page.len() < PAGE || value_in(page, key).is_some(),
        Node::Fork(halves) => halves.block.has(key),
    }
}

// Puts a fork in place of a node that has no room for a prefix. False is want of memory: then the prefix is absent.
fn make_room<V: Drop>(alloc: Global, tree: &mut Subtree<V>, block: Block, key: Prefix) -> bool
    requires tree { IsTree block.first block.bits tree.old.node }
    requires key { IsIn block.first block.bits key }
    ensures entries { entries_of tree.new.node ≡ entries_of tree.old.node }
    ensures tree { IsTree block.first block.bits tree.new.node }
    ensures room { IsTrue result → HasRoom key tree.new.node }
    ensures absent { IsFalse result → value_at prefix_cmp (entries_of tree.old.node) key ≡ None }
{
    if has_room(tree, block, key) {
        return true;
    }
    let roomy = match tree.take(alloc).open() {
        Node::Leaf(page) => leaf_with_room(alloc, page, block, key),
        Node::Fork(halves) => fork_with_room(alloc, halves, block, key),
    };
    match roomy {
        Ok(node) => {
            tree.node = node;
            true
        }
        Err(node) => {
            tree.node = node;
            false
        }
    }
}

/// Writes a value at a prefix, and returns the one before it. An error hands the value back, for want of memory.
#[tactic(auto, using(crate::proofs::TreesLemmas::write))]
pub(crate) fn insert<V: Drop>(
    alloc: Global,
    tree: &mut Subtree<V>,
    block: Block,
    key: Prefix,
    value: V,
) -> Result<Option<V>, V>
    requires tree { IsTree block.first block.bits tree.old.node }
    requires key { IsIn block.first block.bits key }
    ensures tree { IsTree block.first block.bits tree.new.node }
    ensures ok { OnOk result (entries_of tree.new.node ≡ with_value prefix_cmp (entries_of tree.old.node) key value) }
    ensures old { IfOk result (λ old. old ≡ value_at prefix_cmp (entries_of tree.old.node) key) }
    ensures err { OnErr result (entries_of tree.new.node ≡ entries_of tree.old.node) }
    ensures absent { OnErr result (value_at prefix_cmp (entries_of tree.old.node) key ≡ None) }
    ensures back { IfErr result (λ v. v ≡ value) }
{
    if !make_room(alloc, tree, block, key) {
        return Err(value);
    }
    match &mut tree.node {
        Node::Leaf(page) => put(page, key, value),
        Node::Fork(halves) => {
            let halves = &mut **halves;
            let block = halves.block;
            if key.addr() < block.middle() {
                insert(alloc, &mut halves.low, block.low(), key, value)
            } else {
                insert(alloc, &mut halves.high, block.high(), key, value)
            }
        }
    }
}

// Whether it is a leaf without entries.
fn is_bare<V>(tree: &Subtree<V>) -> bool
    ensures { IsTrue result → entries_of tree.now.node ≡ [] }
{
    match tree.read(&mut Steps::start()) {
        Node::Leaf(page) => page.is_empty(),
        Node::Fork(_) => false,
    }
}

// Puts the other half in place of a fork, if one half is a leaf without entries.
#[tactic(auto, using(crate::proofs::TreesLemmas::half))]
fn close_up<V: Drop>(alloc: Global, tree: &mut Subtree<V>, block: Block)
    requires { IsTree block.first block.bits tree.old.node }
    ensures tree { IsTree block.first block.bits tree.new.node }
    ensures entries { entries_of tree.new.node ≡ entries_of tree.old.node }
{
    let _ = block;
    if let Node::Fork(halves) = &mut tree.node {
        let halves = &mut **halves;
        if is_bare(&halves.low) {
            *tree = halves.high.take(alloc);
        } else if is_bare(&halves.high) {
            *tree = halves.low.take(alloc);
        }
    }
}

/// Removes a prefix, and returns its value.
#[tactic(auto, using(crate::proofs::TreesLemmas::find_at))]
pub(crate) fn remove<V: Drop>(
    alloc: Global,
    tree: &mut Subtree<V>,
    block: Block,
    key: Prefix,
) -> Option<V>
    requires { IsTree block.first block.bits tree.old.node }
    ensures tree { IsTree block.first block.bits tree.new.node }
    ensures entries { entries_of tree.new.node ≡ without prefix_cmp (entries_of tree.old.node) key }
    ensures value { result ≡ value_at prefix_cmp (entries_of tree.old.node) key }
{
    match &mut tree.node {
        Node::Leaf(page) => take_out(page, key),
        Node::Fork(halves) => {
            let halves = &mut **halves;
            let part = halves.block;
            if key.addr() < part.middle() {
                let value = remove(alloc, &mut halves.low, part.low(), key);
                close_up(alloc, tree, block);
                value
            } else {
                let value = remove(alloc, &mut halves.high, part.high(), key);
                close_up(alloc, tree, block);
                value
            }
        }
    }
}
