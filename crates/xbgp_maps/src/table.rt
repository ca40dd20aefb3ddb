// One map: a tree of its entries, and a spare node for each entry it has room for, so that no write takes memory.
ghost use Rattle.std.specs.Prelude.{◌≡◌, ◌<◌, ◌≤◌, [], ◌∷◌, ◌++◌, length, map, nat_le, vec_capacity};
ghost use Rattle.std.specs.Prelude.{None, Some, is_some, IfOk, IfSome};
ghost use Rattle.std.specs.List.{AllByRecursion};
ghost use Rattle.std.specs.Option.{option_map};
ghost use Rattle.xb_words.specs.Table.{entry_after};
ghost use Rattle.xbgp_maps.specs.Journals.{when_done};
ghost use Rattle.xbgp_maps.specs.Mappings.{key_cmp, value_in, put_in, taken_from, HasWidths, IsMapping};
ghost use Rattle.xbgp_maps.specs.Tables.{IsBlank};
ghost use Rattle.xbgp_maps.specs.Trees.{IsAlone};

use crate::node::{Node, Tree};
use crate::shape::MapShape;
use crate::tree::{copy_over, find, first, first_after, insert, overwrite, remove, replace};
use std::alloc::{AllocError, Global};
use std::marker::Model;
use xb_values::Buf;

/// One map. Contracts see its shape and its entries by rising key.
#[derive(Drop)]
pub(crate) struct Table {
    shape: MapShape,
    root: Tree,
    spare: Vec<Box<Node>>,
}

impl Model for Table {
    ghost use Rattle.std.specs.Prelude.{map, vec_capacity};
    ghost use Rattle.xbgp_maps.specs.Mappings.{Mapping};
    ghost use Rattle.xbgp_maps.specs.Tables.{IsTable};
    ghost use Rattle.xbgp_maps.specs.Trees.{entries_of, IsBalanced};

    ghost Value = { Mapping };

    ghost view = { λ t. record { shape = t.shape; entries = entries_of t.root } };

    ghost invariant = { λ t.
        let m : Mapping = record { shape = t.shape; entries = entries_of t.root } in
        IsTable m (map (λ n. n.value) t.spare.items) (vec_capacity t.spare) × IsBalanced t.root };
}

// Nodes for all entries of a map.
fn blanks(alloc: Global, shape: MapShape) -> Result<Vec<Box<Node>>, AllocError>
    ensures count { IfOk result (λ v. length v.items ≡ shape.entries) }
    ensures capacity { IfOk result (λ v. shape.entries ≤ vec_capacity v) }
    ensures blank { IfOk result (λ v. AllByRecursion (IsBlank shape) (map (λ n. n.value) v.items)) }
{
    let mut nodes = Vec::with_capacity(alloc, shape.entries as usize)?;
    'nodes: for _ in 0..shape.entries {
        let node = Node::blank(alloc, shape.key as usize, shape.value as usize)?;
        nodes.push(node)?;
    }
    Ok(nodes)
}

// The node with a key and a value of its own widths.
fn filled(mut node: Box<Node>, key: &[u8], value: &[u8]) -> Box<Node>
    requires key { length node.value.key.items ≡ length key.now }
    requires value { length node.value.value.items ≡ length value.now }
    requires alone { IsAlone node.value }
    ensures key { result.value.key.items ≡ key.now }
    ensures value { result.value.value.items ≡ value.now }
    ensures alone { IsAlone result.value }
{
    copy_over(&mut node.key, key);
    copy_over(&mut node.value, value);
    node
}

// Keeps one more spare node, for which there is room.
fn keep(spare: &mut Vec<Box<Node>>, node: Box<Node>)
    requires { length spare.old.items < vec_capacity spare.old }
    ensures items { spare.new.items ≡ spare.old.items ++ node ∷ [] }
    ensures capacity { vec_capacity spare.old ≤ vec_capacity spare.new }
{
    let _ = spare.push(node);
}

impl Table {
    /// A map without entries.
    pub fn make(alloc: Global, shape: MapShape) -> Result<Table, AllocError>
        ensures { IfOk result (λ t. t ≡ record { shape = shape; entries = [] }) }
    {
        Ok(Table {
            shape,
            root: Tree::Leaf,
            spare: blanks(alloc, shape)?,
        })
    }

    pub fn shape(&self) -> MapShape
        ensures { result ≡ self.now.shape }
    {
        self.shape
    }

    pub fn get(&self, key: &[u8]) -> Option<&[u8]>
        ensures value { option_map (λ v. v.now) result ≡ value_in self.now key.now }
        ensures width { IfSome result (λ v. length v.now ≡ self.now.shape.value) }
        ensures kept { IsMapping self.now }
    {
        find(&self.root, key)
    }

    /// Whether there is no room for a new key.
    pub fn is_full(&self) -> bool
        ensures { result ≡ nat_le self.now.shape.entries (length self.now.entries) }
    {
        self.spare.is_empty()
    }

    /// Lets callers know what every map keeps.
    #[inline(always)]
    pub fn know(&self)
        ensures { IsMapping self.now }
    {
        let _ = &self.root;
    }

    /// Replaces the value at a key, if the key is there, which is returned.
    pub fn overwrite(&mut self, key: &[u8], value: &[u8]) -> bool
        requires { length value.now ≡ self.old.shape.value }
        ensures there { result ≡ is_some (value_in self.old key.now) }
        ensures after { self.new ≡ when_done result (put_in self.old key.now value.now) self.old }
    {
        overwrite(&mut self.root, key, value)
    }

    /// Replaces the value at a key as `overwrite` does, and copies the value before into a buffer.
    pub fn replace(&mut self, key: &[u8], value: &[u8], before: &mut Buf) -> bool
        requires width { length value.now ≡ self.old.shape.value }
        requires room { length value.now ≤ before.old.capacity }
        ensures before { value_in self.old key.now ≡ when_done result (Some before.new.octets) None }
        ensures capacity { before.new.capacity ≡ before.old.capacity }
        ensures after { self.new ≡ when_done result (put_in self.old key.now value.now) self.old }
    {
        replace(&mut self.root, key, value, before)
    }

    /// Writes a new key.
    pub fn insert(&mut self, key: &[u8], value: &[u8])
        requires absent { value_in self.old key.now ≡ None }
        requires room { length self.old.entries < self.old.shape.entries }
        requires key { length key.now ≡ self.old.shape.key }
        requires value { length value.now ≡ self.old.shape.value }
        ensures { self.new ≡ put_in self.old key.now value.now }
    {
        if let Some(node) = self.spare.pop() {
            insert(&mut self.root, filled(node, key, value));
        }
    }

    /// Writes a value, whether or not the key is there.
    pub fn put(&mut self, key: &[u8], value: &[u8])
        requires room { value_in self.old key.now ≡ None → length self.old.entries < self.old.shape.entries }
        requires key { length key.now ≡ self.old.shape.key }
        requires value { length value.now ≡ self.old.shape.value }
        ensures { self.new ≡ put_in self.old key.now value.now }
    {
        if !self.overwrite(key, value) {
            self.insert(key, value);
        }
    }

    /// Removes a key, if it is there.
    pub fn remove(&mut self, key: &[u8])
        ensures { self.new ≡ taken_from self.old key.now }
    {
        if let Some(node) = remove(&mut self.root, key) {
            keep(&mut self.spare, node);
        }
    }

    /// Removes a key, if it is there, which is returned, and copies its value into a buffer.
    pub fn take_out(&mut self, key: &[u8], before: &mut Buf) -> bool
        requires { self.old.shape.value ≤ before.old.capacity }
        ensures before { value_in self.old key.now ≡ when_done result (Some before.new.octets) None }
        ensures capacity { before.new.capacity ≡ before.old.capacity }
        ensures after { self.new ≡ when_done result (taken_from self.old key.now) self.old }
    {
        match remove(&mut self.root, key) {
            None => false,
            Some(node) => {
                before.replace(&node.value);
                keep(&mut self.spare, node);
                true
            }
        }
    }

    /// The first entry after a key, or the first of all.
    pub fn entry_after(&self, after: Option<&[u8]>) -> Option<(&[u8], &[u8])>
        ensures entry { option_map (λ e. (e.0.now, e.1.now)) result
            ≡ entry_after key_cmp self.now.entries (option_map (λ k. k.now) after.entry) }
        ensures widths { IfSome result (λ e. HasWidths self.now.shape (e.0.now, e.1.now)) }
        ensures kept { IsMapping self.now }
    {
        match after {
            None => first(&self.root),
            Some(key) => first_after(&self.root, key),
        }
    }
}
