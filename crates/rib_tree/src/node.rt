// The nodes of a tree.
ghost use Rattle.std.specs.Prelude.{◌≡◌, ◌+◌, ◌-◌, ◌^◌, ◌<◌, ℕ, []};
ghost use Rattle.rib_tree.specs.Trees.{entries_of, IsTree};

pub(crate) mod change;

use crate::block::Block;
use crate::page::Page;
use std::alloc::Global;
use std::mem;
use xb_values::Steps;

/// A node with all below it. Its one reading call is `read`, which counts a step.
#[cycle(tree)]
#[derive(Drop)]
pub(crate) struct Subtree<V> {
    node: Node<V>,
}

#[cycle(tree)]
#[derive(Drop)]
pub(crate) enum Node<V> {
    Leaf(Page<V>),
    Fork(Box<Halves<V>>),
}

/// A block, and what is in its lower and its upper half.
#[cycle(tree)]
#[derive(Drop)]
pub(crate) struct Halves<V> {
    pub block: Block,
    pub low: Subtree<V>,
    pub high: Subtree<V>,
}

impl<V> Subtree<V> {
    /// A node by itself.
    pub fn of(node: Node<V>) -> Subtree<V>
        ensures { result.node ≡ node }
    {
        Subtree { node }
    }

    /// A leaf without entries.
    pub fn empty(alloc: Global) -> Subtree<V>
        ensures entries { entries_of result.node ≡ [] }
        ensures tree { (first bits : ℕ) → IsTree first bits result.node }
    {
        Subtree::of(Node::Leaf(Vec::new(alloc)))
    }

    /// Visits the node, which is one step.
    pub fn read<L>(&self, steps: &mut Steps<L>) -> &Node<V>
        requires { steps.old < 2 ^ 64 - 1 }
        ensures node { result.now ≡ self.now.node }
        ensures steps { steps.new ≡ steps.old + 1 }
    {
        steps.tick();
        &self.node
    }

    /// The node, which is not in a tree any more.
    pub fn open(self) -> Node<V>
        ensures { result ≡ self.node }
    {
        self.node
    }

    /// Returns the whole tree, and leaves one without entries.
    pub fn take(&mut self, alloc: Global) -> Subtree<V>
        ensures { result ≡ self.old }
    {
        mem::replace(self, Subtree::empty(alloc))
    }
}
