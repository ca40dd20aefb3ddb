// The table of a peer.
ghost use Rattle.std.specs.Prelude.{◌≡◌, [], is_some, Some, None, IfOk, OnOk, OnErr};
ghost use Rattle.std.specs.Option.{option_map};
ghost use Rattle.xb_words.specs.Table.{entry_after, value_at, with_value, without, IsRising};
ghost use Rattle.xb_values.specs.Prefixes.{prefix_cmp};

use crate::AttrList;
use std::alloc::{AllocError, Global};
use std::collections::BTreeMap;
use std::marker::Model;
use std::ops::Bound;
use xb_values::Prefix;
use xbgp_view::RouteView;

type Lists = BTreeMap<Prefix, AttrList>;

/// The routes of a peer by prefix.
#[derive(Drop)]
pub struct PeerTable {
    alloc: Global,
    lists: Lists,
}

impl Model for PeerTable {
    ghost use Rattle.xbgp_view.specs.Views.{Routes};

    ghost Value = { Routes };

    ghost view = { λ t. t.lists.entries };
}

// The first prefix.
fn first_of(lists: &Lists) -> Option<Prefix>
    ensures entry { result ≡ option_map (λ e. e.0) (entry_after prefix_cmp lists.now.entries None) }
    ensures rising { IsRising prefix_cmp lists.now.entries }
{
    let (prefix, _) = lists.iter().next()?;
    Some(*prefix)
}

// The first prefix after another.
fn first_after(lists: &Lists, prefix: Prefix) -> Option<Prefix>
    ensures entry { result ≡ option_map (λ e. e.0) (entry_after prefix_cmp lists.now.entries (Some prefix)) }
    ensures rising { IsRising prefix_cmp lists.now.entries }
{
    let (prefix, _) = lists
        .range((Bound::Excluded(prefix), Bound::Unbounded))
        .next()?;
    Some(*prefix)
}

impl PeerTable {
    /// A table without routes. The error is want of memory.
    pub fn make(alloc: Global) -> Result<PeerTable, AllocError>
        ensures { IfOk result (λ t. t ≡ []) }
    {
        Ok(PeerTable {
            alloc,
            lists: BTreeMap::new(alloc),
        })
    }

    /// Keeps a copy of the route that a view shows, in place of an earlier route of the prefix. The error is want of
    /// memory; then the table is unchanged.
    pub fn put<R: RouteView>(&mut self, prefix: Prefix, view: &R) -> Result<(), AllocError>
        ensures ok { OnOk result (self.new ≡ with_value prefix_cmp self.old prefix (R.route view.now)) }
        ensures err { OnErr result (self.new ≡ self.old) }
    {
        let list = AttrList::copy_of(self.alloc, view)?;
        let _ = self.lists.insert(prefix, list)?;
        Ok(())
    }

    /// Removes the route of a prefix. Whether there was one is returned.
    pub fn remove(&mut self, prefix: Prefix) -> bool
        ensures found { result ≡ is_some (value_at prefix_cmp self.old prefix) }
        ensures after { self.new ≡ without prefix_cmp self.old prefix }
    {
        self.lists.remove(&prefix).is_some()
    }

    /// The route of a prefix, if there is one.
    pub fn get(&self, prefix: Prefix) -> Option<&AttrList>
        ensures { option_map (λ l. l.now) result ≡ value_at prefix_cmp self.now prefix }
    {
        self.lists.get(&prefix)
    }

    /// The first prefix after the one given, or the first of all if none is given. None after the last.
    pub fn after(&self, after: Option<Prefix>) -> Option<Prefix>
        ensures prefix { result ≡ option_map (λ e. e.0) (entry_after prefix_cmp self.now after) }
        ensures rising { IsRising prefix_cmp self.now }
    {
        match after {
            None => first_of(&self.lists),
            Some(prefix) => first_after(&self.lists, prefix),
        }
    }
}
