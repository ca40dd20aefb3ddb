// The map of entries: its changes, and the search for what waits.
ghost use Rattle.std.specs.Prelude.{◌≡◌, ℕ, List, IsTrue, is_some, Some, None, IfSome, IfOk, OnOk, OnErr};
ghost use Rattle.std.specs.Prelude.{find};
ghost use Rattle.std.specs.BTreeMap.Range.{entries_between};
ghost use Rattle.std.specs.Map.Iter.{deref_pair};
ghost use Rattle.std.specs.Option.{option_and_then, option_map};
ghost use Rattle.std.specs.declared.ops.Bound.TheVariants.{Included, Excluded, Unbounded};
ghost use Rattle.xb_words.specs.Table.{entry_after, first_of as first_in, value_at, with_value, without, IsRising};
ghost use Rattle.xb_values.specs.Prefixes.{Prefix, prefix_cmp};
ghost use Rattle.bgp_write.specs.Pending.{same_section, section_of};
ghost use Rattle.out_grouped.specs.Slots.{adv_in, advertised, is_fresh, is_gone, keys_where, retold, taken_back};
ghost use Rattle.out_grouped.specs.Slots.{waited, was_told};
ghost use Rattle.out_grouped.specs.Waits.{Has};

use crate::entry::Entry;
use crate::waiting::Waiting;
use std::alloc::{AllocError, Global};
use std::collections::BTreeMap;
use std::ops::Bound;
use xb_values::Prefix;

pub(crate) type Entries = BTreeMap<Prefix, Entry>;

/// Forgets a prefix.
pub(crate) fn forget(entries: &mut Entries, prefix: Prefix)
    ensures { entries.new.entries ≡ without prefix_cmp entries.old.entries prefix }
{
    let _ = entries.remove(&prefix);
}

/// Takes what a prefix is advertised with for told.
pub(crate) fn tell(entries: &mut Entries, prefix: Prefix)
    requires { IfSome (value_at prefix_cmp entries.old.entries prefix) (λ s. IsTrue (is_some s.adv)) }
    ensures { entries.new.entries
        ≡ retold entries.old.entries prefix (value_at prefix_cmp entries.old.entries prefix) }
{
    if let Some(entry) = entries.get_mut(&prefix) {
        entry.tell();
    }
}

// The first entry from a prefix on that waits to be withdrawn.
fn find_gone(entries: &Entries, from: Prefix) -> Option<(&Prefix, &Entry)>
    ensures { option_map deref_pair result
        ≡ find (λ e. is_gone e.1) (entries_between prefix_cmp (Included from) Unbounded entries.now.entries) }
{
    entries
        .range((Bound::Included(from), Bound::Unbounded))
        .find(|e| e.1.is_gone())
}

/// The first prefix that waits to be withdrawn.
pub(crate) fn first_gone(entries: &Entries, gone: &Waiting) -> Option<Prefix>
    requires { Has gone.now (keys_where is_gone entries.now.entries) }
    ensures { result ≡ first_in (keys_where is_gone entries.now.entries) }
{
    let Some(from) = gone.from() else {
        return gone.first_known();
    };
    let (prefix, _) = find_gone(entries, from)?;
    Some(*prefix)
}

/// The first prefix that waits to be withdrawn, at which the next search begins.
pub(crate) fn next_gone(entries: &Entries, gone: &mut Waiting) -> Option<Prefix>
    requires rising { IsRising prefix_cmp entries.now.entries }
    requires waits { Has gone.old (keys_where is_gone entries.now.entries) }
    ensures first { result ≡ first_in (keys_where is_gone entries.now.entries) }
    ensures waits { Has gone.new (keys_where is_gone entries.now.entries) }
{
    let Some(first) = first_gone(entries, gone) else {
        gone.start_at(None);
        return None;
    };
    gone.start_at(Some(first));
    Some(first)
}

// The first entry from a prefix on that waits to be announced.
fn find_fresh(entries: &Entries, from: Prefix) -> Option<(&Prefix, &Entry)>
    ensures { option_map deref_pair result
        ≡ find (λ e. is_fresh e.1) (entries_between prefix_cmp (Included from) Unbounded entries.now.entries) }
{
    entries
        .range((Bound::Included(from), Bound::Unbounded))
        .find(|e| e.1.is_fresh())
}

/// The first prefix that waits to be announced.
pub(crate) fn first_fresh(entries: &Entries, fresh: &Waiting) -> Option<Prefix>
    requires { Has fresh.now (keys_where is_fresh entries.now.entries) }
    ensures { result ≡ first_in (keys_where is_fresh entries.now.entries) }
{
    let Some(from) = fresh.from() else {
        return fresh.first_known();
    };
    let (prefix, _) = find_fresh(entries, from)?;
    Some(*prefix)
}

/// The first prefix that waits to be announced, at which the next search begins.
pub(crate) fn next_fresh(entries: &Entries, fresh: &mut Waiting) -> Option<Prefix>
    requires rising { IsRising prefix_cmp entries.now.entries }
    requires waits { Has fresh.old (keys_where is_fresh entries.now.entries) }
    ensures first { result ≡ first_in (keys_where is_fresh entries.now.entries) }
    ensures waits { Has fresh.new (keys_where is_fresh entries.now.entries) }
{
    let Some(first) = first_fresh(entries, fresh) else {
        fresh.start_at(None);
        return None;
    };
    fresh.start_at(Some(first));
    Some(first)
}

// The first advertised entry.
fn find_advertised(entries: &Entries) -> Option<(&Prefix, &Entry)>
    ensures { option_map deref_pair result ≡ find (λ e. is_some e.1.adv) entries.now.entries }
{
    entries.iter().find(|e| e.1.is_advertised())
}

// The first advertised entry after a prefix.
fn find_after(entries: &Entries, prefix: Prefix) -> Option<(&Prefix, &Entry)>
    ensures { option_map deref_pair result
        ≡ find (λ e. is_some e.1.adv) (entries_between prefix_cmp (Excluded prefix) Unbounded entries.now.entries) }
{
    entries
        .range((Bound::Excluded(prefix), Bound::Unbounded))
        .find(|e| e.1.is_advertised())
}

// What an entry that was found is advertised with.
fn section_of_found<'a>(found: Option<(&'a Prefix, &'a Entry)>) -> Option<(Prefix, &'a [u8])>
    ensures { option_map {U = Prefix × List ℕ} (λ e. (e.0, e.1.now)) result
        ≡ option_and_then (λ e. option_map (λ s. (e.0.now, s)) e.1.now.adv) found.entry }
{
    let (prefix, entry) = found?;
    Some((*prefix, entry.adv()?))
}

/// The first advertised prefix, with its section.
pub(crate) fn first_of(entries: &Entries) -> Option<(Prefix, &[u8])>
    ensures { option_map (λ e. (e.0, e.1.now)) result ≡ entry_after prefix_cmp (adv_in entries.now.entries) None }
{
    section_of_found(find_advertised(entries))
}

/// The first advertised prefix after another, with its section.
pub(crate) fn first_after(entries: &Entries, prefix: Prefix) -> Option<(Prefix, &[u8])>
    ensures { option_map (λ e. (e.0, e.1.now)) result
        ≡ entry_after prefix_cmp (adv_in entries.now.entries) (Some prefix) }
{
    section_of_found(find_after(entries, prefix))
}

/// The section with which a prefix is advertised, empty if it is not.
pub(crate) fn section_at(entries: &Entries, prefix: Prefix) -> &[u8]
    requires { IsRising prefix_cmp entries.now.entries }
    ensures { result.now ≡ section_of (adv_in entries.now.entries) prefix }
{
    let Some(entry) = entries.get(&prefix) else {
        return &[];
    };
    match entry.adv() {
        Some(section) => section,
        None => &[],
    }
}
