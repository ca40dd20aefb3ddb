// The prefixes that wait for a message.
ghost use Rattle.std.specs.Prelude.{◌≡◌, List, [], ◌∷◌, None};
ghost use Rattle.std.specs.BTreeMap.{is_at};
ghost use Rattle.std.specs.BTreeMap.Range.{IsLeBy};
ghost use Rattle.std.specs.BTreeSet.{insert_key};
ghost use Rattle.std.specs.List.Sorted.{IsStrictlySortedBy};
ghost use Rattle.std.specs.Set.{remove_key};
ghost use Rattle.xb_words.specs.Table.{first_of};
ghost use Rattle.xb_values.specs.Prefixes.{Prefix, prefix_cmp};
ghost use Rattle.out_grouped.specs.Waits.{with_wait, Has};

use std::alloc::Global;
use std::collections::BTreeSet;
use xb_values::Prefix;

/// Which message is due for a prefix: its announcement, or its withdrawal.
#[derive(Clone, Copy)]
pub(crate) struct Due {
    pub(crate) fresh: bool,
    pub(crate) gone: bool,
}

/// What is due for a prefix before a change and after it.
#[derive(Clone, Copy)]
pub(crate) struct Turn {
    pub(crate) before: Due,
    pub(crate) after: Due,
}

/// The prefixes that wait for a message. If there was no memory for one of them, only where a search for them begins.
#[derive(Drop)]
pub(crate) struct Waiting {
    known: BTreeSet<Prefix>,
    // If it is given, none before it waits, and `known` is empty.
    from: Option<Prefix>,
}

// The earlier of two prefixes.
fn earlier(a: Prefix, b: Prefix) -> Prefix
    ensures first { IsLeBy prefix_cmp result a }
    ensures second { IsLeBy prefix_cmp result b }
{
    if a < b { a } else { b }
}

impl Waiting {
    /// None waits.
    pub(crate) fn none(alloc: Global) -> Waiting
        ensures { Has result [] }
    {
        Waiting {
            known: BTreeSet::new(alloc),
            from: None,
        }
    }

    /// The first that waits, if `from` is not given.
    pub(crate) fn first_known(&self) -> Option<Prefix>
        ensures { result ≡ first_of self.now.known.keys }
    {
        self.known.first().copied()
    }

    /// The prefix at which a search begins, if they are not known.
    pub(crate) fn from(&self) -> Option<Prefix>
        ensures { result ≡ self.now.from }
    {
        self.from
    }

    // None before that prefix waits, nor before the first that is known.
    fn forget_known(&mut self, prefix: Prefix)
        requires alone { self.old.from ≡ None }
        requires ordered { IsStrictlySortedBy prefix_cmp self.old.known.keys }
        ensures { (ps : List Prefix) → Has self.old ps → Has self.new (insert_key prefix_cmp ps prefix) }
    {
        let from = match self.first_known() {
            Some(first) => earlier(first, prefix),
            None => prefix,
        };
        self.from = Some(from);
        self.known.clear();
    }

    // A prefix waits from now on, or waits still.
    fn add(&mut self, prefix: Prefix)
        ensures { (ps : List Prefix) → Has self.old ps → Has self.new (insert_key prefix_cmp ps prefix) }
    {
        let Some(from) = self.from else {
            if self.known.insert(prefix).is_err() {
                self.forget_known(prefix);
            }
            return;
        };
        self.from = Some(earlier(from, prefix));
    }

    // A prefix waits no longer, if it waited.
    fn remove(&mut self, prefix: Prefix)
        ensures { (ps : List Prefix) → Has self.old ps → Has self.new (remove_key (is_at (prefix_cmp prefix)) ps) }
    {
        let _ = self.known.remove(&prefix);
    }

    /// A prefix waits from now on, or waits no longer.
    pub(crate) fn set(&mut self, prefix: Prefix, waits: bool)
        ensures { (ps : List Prefix) → Has self.old ps → Has self.new (with_wait ps prefix waits) }
    {
        if waits {
            self.add(prefix);
        } else {
            self.remove(prefix);
        }
    }

    // The same for a prefix of which it is known whether it waits.
    fn turn(&mut self, prefix: Prefix, before: bool, after: bool)
        ensures { (ps : List Prefix) → with_wait ps prefix before ≡ ps → Has self.old ps
            → Has self.new (with_wait ps prefix after) }
    {
        if before != after {
            self.set(prefix, after);
        }
    }

    /// The first waits no longer.
    pub(crate) fn remove_first(&mut self)
        ensures { (p : Prefix) (ps : List Prefix) → Has self.old (p ∷ ps) → Has self.new ps }
    {
        let _ = self.known.pop_first();
    }

    /// The first that waits was found, or that none waits.
    pub(crate) fn start_at(&mut self, first: Option<Prefix>)
        ensures { (ps : List Prefix) → IsStrictlySortedBy prefix_cmp ps → first ≡ first_of ps → Has self.old ps
            → Has self.new ps }
    {
        if self.from.is_some() {
            self.from = first;
        }
    }
}

/// A prefix waits as it does after a change. Those that wait to be withdrawn are given, and those that wait to be
/// announced.
pub(crate) fn follow(gone: &mut Waiting, fresh: &mut Waiting, prefix: Prefix, turn: Turn)
    ensures gone { (ps : List Prefix) → with_wait ps prefix turn.before.gone ≡ ps → Has gone.old ps
        → Has gone.new (with_wait ps prefix turn.after.gone) }
    ensures fresh { (ps : List Prefix) → with_wait ps prefix turn.before.fresh ≡ ps → Has fresh.old ps
        → Has fresh.new (with_wait ps prefix turn.after.fresh) }
{
    gone.turn(prefix, turn.before.gone, turn.after.gone);
    fresh.turn(prefix, turn.before.fresh, turn.after.fresh);
}
