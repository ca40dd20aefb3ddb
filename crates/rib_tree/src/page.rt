// A page: some entries by rising prefix, in one list.
ghost use Rattle.std.specs.Prelude.{◌≡◌, ◌==◌, ◌<◌, ◌≤◌, ◌++◌, length, find, is_some, slice_get, slice_set, remove};
ghost use Rattle.std.specs.Prelude.{None, Some, IsTrue, IfOk, IfErr, OnOk, OnErr};
ghost use Rattle.std.specs.List.{insert as list_insert};
ghost use Rattle.std.specs.Ordering.{is_gt};
ghost use Rattle.std.specs.Option.{option_map};
ghost use Rattle.xb_words.specs.Table.{entry_after, first_of, value_at, with_value, without, IsRising};
ghost use Rattle.xb_values.specs.Prefixes.{prefix_cmp};
ghost use Rattle.rib_tree.specs.Pages.{place_of, place_at, value_if, AllBelow, AllFrom};

use std::alloc::AllocError;
use std::mem;
use xb_values::Prefix;

pub(crate) type Page<V> = Vec<(Prefix, V)>;

/// A page that has as many entries is split before another one goes in.
pub(crate) const PAGE: usize = 64;

// How many entries are before a prefix.
fn place<V>(entries: &[(Prefix, V)], key: Prefix) -> usize
    ensures place { result ≡ place_of prefix_cmp key entries.now }
    ensures within { result ≤ length entries.now }
{
    entries.iter().take_while(|e| e.0 < key).count()
}

/// How many entries have addresses below this one.
pub(crate) fn how_many_below<V>(entries: &[(Prefix, V)], addr: u32) -> usize
    ensures place { result ≡ place_at addr entries.now }
    ensures within { result ≤ length entries.now }
{
    entries.iter().take_while(|e| e.0.addr() < addr).count()
}

// The value of the entry at an index, if it is one of the prefix.
fn value_if_at<V>(entries: &[(Prefix, V)], at: usize, key: Prefix) -> Option<&V>
    ensures { option_map (λ v. v.now) result ≡ value_if prefix_cmp key (slice_get entries.now at) }
{
    let (prefix, value) = entries.get(at)?;
    if *prefix == key { Some(value) } else { None }
}

// Whether the entry at an index is one of the prefix.
fn is_at<V>(entries: &[(Prefix, V)], at: usize, key: Prefix) -> bool
    ensures { result ≡ is_some (value_if prefix_cmp key (slice_get entries.now at)) }
{
    value_if_at(entries, at, key).is_some()
}

/// The value at a prefix.
#[tactic(auto, using(crate::proofs::PageLemmas::look_up))]
pub(crate) fn value_in<V>(entries: &[(Prefix, V)], key: Prefix) -> Option<&V>
    requires { IsRising prefix_cmp entries.now }
    ensures { option_map (λ v. v.now) result ≡ value_at prefix_cmp entries.now key }
{
    value_if_at(entries, place(entries, key), key)
}

/// The first prefix.
pub(crate) fn first_in<V>(entries: &[(Prefix, V)]) -> Option<Prefix>
    ensures { result ≡ option_map (λ e. e.0) (first_of entries.now) }
{
    let (prefix, _) = entries.first()?;
    Some(*prefix)
}

// The first entry whose prefix is greater.
fn find_greater<V>(entries: &[(Prefix, V)], key: Prefix) -> Option<&(Prefix, V)>
    ensures { option_map (λ e. e.now) result ≡ find (λ e. is_gt (prefix_cmp e.0 key)) entries.now }
{
    entries.iter().find(|e| e.0 > key)
}

// The first entry after a prefix.
fn find_after<V>(entries: &[(Prefix, V)], key: Prefix) -> Option<&(Prefix, V)>
    ensures { option_map (λ e. e.now) result ≡ entry_after prefix_cmp entries.now (Some key) }
{
    find_greater(entries, key)
}

/// The first prefix after another.
pub(crate) fn first_after_in<V>(entries: &[(Prefix, V)], key: Prefix) -> Option<Prefix>
    ensures { result ≡ option_map (λ e. e.0) (entry_after prefix_cmp entries.now (Some key)) }
{
    let (prefix, _) = find_after(entries, key)?;
    Some(*prefix)
}

// Replaces the entry at an index, and returns the value that it had.
fn replace<V>(entries: &mut Page<V>, at: usize, key: Prefix, value: V) -> V
    requires { at < length entries.old.items }
    ensures value { option_map (λ e. e.1) (slice_get entries.old.items at) ≡ Some result }
    ensures after { entries.new.items ≡ slice_set entries.old.items at (key, value) }
{
    mem::replace(&mut entries[at], (key, value)).1
}

// Inserts an entry at an index. The error is want of memory.
fn insert_at<V>(entries: &mut Page<V>, at: usize, key: Prefix, value: V) -> Result<(), V>
    requires { at ≤ length entries.old.items }
    ensures ok { OnOk result (entries.new.items ≡ list_insert entries.old.items at (key, value)) }
    ensures err { OnErr result (entries.new.items ≡ entries.old.items) }
    ensures back { IfErr result (λ v. v ≡ value) }
{
    match entries.insert(at, (key, value)) {
        Ok(()) => Ok(()),
        Err(failed) => Err(failed.value.1),
    }
}

// Removes the entry at an index, and returns its value.
fn remove_at<V>(entries: &mut Page<V>, at: usize) -> V
    requires { at < length entries.old.items }
    ensures value { option_map (λ e. e.1) (slice_get entries.old.items at) ≡ Some result }
    ensures after { entries.new.items ≡ remove entries.old.items at }
{
    entries.remove(at).1
}

/// Writes a value, and returns the one before it. An error hands the value back, for want of memory.
pub(crate) fn put<V>(entries: &mut Page<V>, key: Prefix, value: V) -> Result<Option<V>, V>
    requires { IsRising prefix_cmp entries.old.items }
    ensures ok { OnOk result (entries.new.items ≡ with_value prefix_cmp entries.old.items key value) }
    ensures old { IfOk result (λ old. old ≡ value_at prefix_cmp entries.old.items key) }
    ensures err { OnErr result (entries.new.items ≡ entries.old.items) }
    ensures absent { OnErr result (value_at prefix_cmp entries.old.items key ≡ None) }
    ensures back { IfErr result (λ v. v ≡ value) }
{
    let at = place(entries, key);
    if is_at(entries, at, key) {
        return Ok(Some(replace(entries, at, key, value)));
    }
    match insert_at(entries, at, key, value) {
        Ok(()) => Ok(None),
        Err(value) => Err(value),
    }
}

/// Removes a prefix, and returns its value.
pub(crate) fn take_out<V>(entries: &mut Page<V>, key: Prefix) -> Option<V>
    requires { IsRising prefix_cmp entries.old.items }
    ensures value { result ≡ value_at prefix_cmp entries.old.items key }
    ensures after { entries.new.items ≡ without prefix_cmp entries.old.items key }
{
    let at = place(entries, key);
    if is_at(entries, at, key) {
        Some(remove_at(entries, at))
    } else {
        None
    }
}

/// Keeps the entries with addresses below this one, and returns the others. An error is want of memory.
pub(crate) fn split<V>(entries: &mut Page<V>, addr: u32) -> Result<Page<V>, AllocError>
    requires { IsRising prefix_cmp entries.old.items }
    ensures ok { IfOk result (λ others. entries.new.items ++ others.items ≡ entries.old.items) }
    ensures below { OnOk result (AllBelow addr entries.new.items) }
    ensures from { IfOk result (λ others. AllFrom addr others.items) }
    ensures rising { OnOk result (IsRising prefix_cmp entries.new.items) }
    ensures rising_others { IfOk result (λ others. IsRising prefix_cmp others.items) }
    ensures err { OnErr result (entries.new.items ≡ entries.old.items) }
{
    let at = how_many_below(entries, addr);
    let others = entries.split_off(at)?;
    Ok(others)
}
