// The tree.
ghost use Rattle.std.specs.Prelude.{◌≡◌, ◌+◌, ◌-◌, ◌^◌, ◌<◌, ◌≤◌, [], Some, None, IfOk, IfErr, OnOk, OnErr, OnSome};
ghost use Rattle.std.specs.Option.{option_map};
ghost use Rattle.xb_words.specs.Table.{entry_after, value_at, with_value, without, IsRising};
ghost use Rattle.xb_values.specs.Prefixes.{prefix_cmp};

use crate::block::Block;
use crate::node::Subtree;
use crate::node::change::{insert, remove};
use crate::walk::{find, first, first_after};
use std::alloc::{AllocError, Global};
use std::marker::Model;
use xb_values::{Prefix, Steps};

/// A finite map from prefixes to values.
#[derive(Drop)]
pub struct Tree<V> {
    alloc: Global,
    root: Subtree<V>,
}

impl<V> Model for Tree<V> {
    ghost use Rattle.std.specs.Prelude.{List};
    ghost use Rattle.xb_values.specs.Prefixes.{Prefix};
    ghost use Rattle.rib_tree.specs.Trees.{entries_of, IsTree};

    ghost Value = { List (Prefix × V) };

    ghost view = { λ t. entries_of t.root.node };

    ghost invariant = { λ t. IsTree 0 32 t.root.node };
}

impl<V> Tree<V> {
    /// A tree without entries. The error is want of memory.
    pub fn make(alloc: Global) -> Result<Tree<V>, AllocError>
        ensures { IfOk result (λ t. t ≡ []) }
    {
        Ok(Tree {
            alloc,
            root: Subtree::empty(alloc),
        })
    }

    /// The value at a prefix, if there is one. Each node that is visited is one step, and at most 33 are.
    #[tactic(auto, using(crate::proofs::TreesLemmas::nodes))]
    pub fn get<L>(&self, prefix: Prefix, steps: &mut Steps<L>) -> Option<&V>
        requires { steps.old ≤ 2 ^ 64 - 34 }
        ensures value { option_map (λ v. v.now) result ≡ value_at prefix_cmp self.now prefix }
        ensures least { steps.old < steps.new }
        ensures most { steps.new ≤ steps.old + 33 }
        ensures rising { IsRising prefix_cmp self.now }
    {
        find(&self.root, prefix, steps)
    }

    /// The first prefix after the one given, or the first of all if none is given. None after the last.
    pub fn after(&self, after: Option<Prefix>) -> Option<Prefix>
        ensures prefix { result ≡ option_map (λ e. e.0) (entry_after prefix_cmp self.now after) }
        ensures rising { IsRising prefix_cmp self.now }
    {
        match after {
            None => first(&self.root),
            Some(prefix) => first_after(&self.root, prefix),
        }
    }
}

impl<V: Drop> Tree<V> {
    /// Writes a value at a prefix, and returns the one before it. An error hands the value back, for want of memory;
    /// then the tree is unchanged. It never comes at a prefix that is there.
    pub fn insert(&mut self, prefix: Prefix, value: V) -> Result<Option<V>, V>
        ensures ok { OnOk result (self.new ≡ with_value prefix_cmp self.old prefix value) }
        ensures old { IfOk result (λ old. old ≡ value_at prefix_cmp self.old prefix) }
        ensures err { OnErr result (self.new ≡ self.old) }
        ensures back { IfErr result (λ v. v ≡ value) }
        ensures absent { OnErr result (value_at prefix_cmp self.old prefix ≡ None) }
        ensures rising { IsRising prefix_cmp self.new }
    {
        insert(
            self.alloc,
            &mut self.root,
            Block::around(prefix),
            prefix,
            value,
        )
    }

    /// Removes a prefix, and returns its value, if there is one.
    pub fn remove(&mut self, prefix: Prefix) -> Option<V>
        ensures value { result ≡ value_at prefix_cmp self.old prefix }
        ensures after { self.new ≡ without prefix_cmp self.old prefix }
        ensures rising { IsRising prefix_cmp self.new }
    {
        remove(self.alloc, &mut self.root, Block::whole(), prefix)
    }
}
