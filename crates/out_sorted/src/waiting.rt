// The prefixes that wait for a message.
ghost use Rattle.std.specs.Prelude.{◌≡◌, true, false, not, List, [], ◌∷◌, None};
ghost use Rattle.std.specs.BTreeMap.{is_at};
ghost use Rattle.std.specs.BTreeMap.Range.{IsLeBy};
ghost use Rattle.std.specs.BTreeSet.{insert_key};
ghost use Rattle.std.specs.List.Sorted.{IsStrictlySortedBy};
ghost use Rattle.std.specs.Set.{remove_key};
ghost use Rattle.xb_words.specs.Table.{first_of};
ghost use Rattle.xb_values.specs.Prefixes.{Prefix, prefix_cmp};
ghost use Rattle.out_sorted.specs.Waits.{with_change, Has};

use std::alloc::Global;
use std::collections::BTreeSet;
use xb_values::Prefix;

/// Whether a prefix waits to be withdrawn, and whether it waits to be announced.
#[derive(Clone, Copy)]
pub(crate) struct Waits {
    pub(crate) gone: bool,
    pub(crate) fresh: bool,
}

impl Waits {
    /// Not at all.
    pub(crate) fn none() -> Waits
        ensures { result ≡ record { gone = false; fresh = false } }
    {
        Waits {
            gone: false,
            fresh: false,
        }
    }

    pub(crate) fn to_withdraw() -> Waits
        ensures { result ≡ record { gone = true; fresh = false } }
    {
        Waits {
            gone: true,
            fresh: false,
        }
    }

    pub(crate) fn to_announce() -> Waits
        ensures { result ≡ record { gone = false; fresh = true } }
    {
        Waits {
            gone: false,
            fresh: true,
        }
    }
}

/// How a prefix waited before a change, and how it waits from then on.
#[derive(Clone, Copy)]
pub(crate) struct Change {
    pub(crate) before: Waits,
    pub(crate) after: Waits,
}

/// The prefixes that wait for a message. If there was no memory for one of them, only where a search for them begins.
#[derive(Drop)]
pub(crate) struct Waiting {
    known: BTreeSet<Prefix>,
    // If it is given, none before it waits, and `known` is empty.
    from: Option<Prefix>,
}

// The earlier of two prefixes.
fn earlier(a: Prefix, b: Prefix) -> Prefix
    ensures first { IsLeBy prefix_cmp result a }
    ensures second { IsLeBy prefix_cmp result b }
{
    if a < b { a } else { b }
}

impl Waiting {
    /// None waits.
    pub(crate) fn none(alloc: Global) -> Waiting
        ensures { Has result [] }
    {
        Waiting {
            known: BTreeSet::new(alloc),
            from: None,
        }
    }

    /// The first that waits, if `from` is not given.
    pub(crate) fn first_known(&self) -> Option<Prefix>
        ensures { result ≡ first_of self.now.known.keys }
    {
        self.known.first().copied()
    }

    /// The prefix at which a search begins, if they are not known.
    pub(crate) fn from(&self) -> Option<Prefix>
        ensures { result ≡ self.now.from }
    {
        self.from
    }

    // None before that prefix waits, nor before the first that is known.
    fn forget_known(&mut self, prefix: Prefix)
        requires alone { self.old.from ≡ None }
        requires ordered { IsStrictlySortedBy prefix_cmp self.old.known.keys }
        ensures { (ps : List Prefix) → Has self.old ps → Has self.new (insert_key prefix_cmp ps prefix) }
    {
        let from = match self.first_known() {
            Some(first) => earlier(first, prefix),
            None => prefix,
        };
        self.from = Some(from);
        self.known.clear();
    }

    // A prefix waits from now on, or waits still.
    fn add(&mut self, prefix: Prefix)
        ensures { (ps : List Prefix) → Has self.old ps → Has self.new (insert_key prefix_cmp ps prefix) }
    {
        let Some(from) = self.from else {
            if self.known.insert(prefix).is_err() {
                self.forget_known(prefix);
            }
            return;
        };
        self.from = Some(earlier(from, prefix));
    }

    // A prefix waits no longer, if it waited.
    fn remove(&mut self, prefix: Prefix)
        ensures { (ps : List Prefix) → Has self.old ps → Has self.new (remove_key (is_at (prefix_cmp prefix)) ps) }
    {
        let _ = self.known.remove(&prefix);
    }

    // A prefix waits from now on, or waits no longer.
    fn set(&mut self, prefix: Prefix, waits: bool)
        ensures { (ps : List Prefix) → Has self.old ps → Has self.new (with_change ps prefix (not waits) waits) }
    {
        if waits {
            self.add(prefix);
        } else {
            self.remove(prefix);
        }
    }

    /// The first waits no longer.
    pub(crate) fn remove_first(&mut self)
        ensures { (p : Prefix) (ps : List Prefix) → Has self.old (p ∷ ps) → Has self.new ps }
    {
        let _ = self.known.pop_first();
    }

    /// The first that waits was found, or that none waits.
    pub(crate) fn start_at(&mut self, first: Option<Prefix>)
        ensures { (ps : List Prefix) → IsStrictlySortedBy prefix_cmp ps → first ≡ first_of ps → Has self.old ps
            → Has self.new ps }
    {
        if self.from.is_some() {
            self.from = first;
        }
    }
}

/// A prefix waits as a change says. What stays as it was costs nothing.
pub(crate) fn note(gone: &mut Waiting, fresh: &mut Waiting, prefix: Prefix, change: Change)
    ensures gone { (ps : List Prefix) → Has gone.old ps
        → Has gone.new (with_change ps prefix change.before.gone change.after.gone) }
    ensures fresh { (ps : List Prefix) → Has fresh.old ps
        → Has fresh.new (with_change ps prefix change.before.fresh change.after.fresh) }
{
    if change.before.gone != change.after.gone {
        gone.set(prefix, change.after.gone);
    }
    if change.before.fresh != change.after.fresh {
        fresh.set(prefix, change.after.fresh);
    }
}
