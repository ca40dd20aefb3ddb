// Tables of ids, and the owners of the records that they name.
ghost use Rattle.std.specs.Prelude.{◌≡◌, [], fold, IsSome, OnOk, OnErr};
ghost use Rattle.std.specs.Option.{option_map};
ghost use Rattle.std.specs.List.{AllByRecursion};
ghost use Rattle.std.specs.Map.{values_of};
ghost use Rattle.xb_words.specs.Table.{value_at, with_value, without, IsRising};
ghost use Rattle.xb_values.specs.Prefixes.{prefix_cmp};
ghost use Rattle.attr_intern.specs.Pools.{record_at, released, ArePooled};
ghost use Rattle.host_interned.specs.Ribs.{given_up};

use crate::Chosen;
use attr_intern::{Pool, RecordId};
use rib_tree::Tree;
use std::alloc::AllocError;
use xb_values::{Prefix, Steps};

/// What a tree has at a prefix.
pub(crate) fn find<V>(tree: &Tree<V>, prefix: Prefix) -> Option<&V>
    ensures value { option_map (λ v. v.now) result ≡ value_at prefix_cmp tree.now prefix }
    ensures rising { IsRising prefix_cmp tree.now }
{
    tree.get(prefix, &mut Steps::start())
}

/// Writes an id that has an owner for it at a prefix, and gives up the id that was there. The error is want of memory;
/// then the table is unchanged, and the new id was given up.
pub(crate) fn put_sent(
    records: &mut Pool,
    sent: &mut Tree<RecordId>,
    prefix: Prefix,
    id: RecordId,
) -> Result<(), AllocError>
    requires pooled { ArePooled records.old }
    requires lives { IsSome (record_at records.old id) }
    requires all { AllByRecursion (λ e. IsSome (record_at records.old e.1)) sent.old }
    ensures ok { OnOk result (sent.new ≡ with_value prefix_cmp sent.old prefix id) }
    ensures ok_records { OnOk result
        (records.new ≡ given_up records.old (value_at prefix_cmp sent.old prefix)) }
    ensures err { OnErr result (sent.new ≡ sent.old) }
    ensures err_records { OnErr result (records.new ≡ released records.old id) }
    ensures rising { IsRising prefix_cmp sent.new }
    ensures pooled { ArePooled records.new }
{
    match sent.insert(prefix, id) {
        Ok(None) => Ok(()),
        Ok(Some(old)) => {
            records.release(old);
            Ok(())
        }
        Err(id) => {
            records.release(id);
            Err(AllocError)
        }
    }
}

/// Removes the id of a prefix, and gives it up.
pub(crate) fn remove_sent(records: &mut Pool, sent: &mut Tree<RecordId>, prefix: Prefix)
    requires pooled { ArePooled records.old }
    requires all { AllByRecursion (λ e. IsSome (record_at records.old e.1)) sent.old }
    ensures sent { sent.new ≡ without prefix_cmp sent.old prefix }
    ensures records { records.new ≡ given_up records.old (value_at prefix_cmp sent.old prefix) }
    ensures rising { IsRising prefix_cmp sent.new }
    ensures pooled { ArePooled records.new }
{
    if let Some(id) = sent.remove(prefix) {
        records.release(id);
    }
}

/// The same as [`put_sent`] of a best route.
pub(crate) fn put_chosen(
    records: &mut Pool,
    best: &mut Tree<Chosen>,
    prefix: Prefix,
    chosen: Chosen,
) -> Result<(), AllocError>
    requires pooled { ArePooled records.old }
    requires lives { IsSome (record_at records.old chosen.«record») }
    requires all { AllByRecursion (λ e. IsSome (record_at records.old e.1.«record»)) best.old }
    ensures ok { OnOk result (best.new ≡ with_value prefix_cmp best.old prefix chosen) }
    ensures ok_records { OnOk result (records.new
        ≡ given_up records.old (option_map (λ c. c.«record») (value_at prefix_cmp best.old prefix))) }
    ensures err { OnErr result (best.new ≡ best.old) }
    ensures err_records { OnErr result (records.new ≡ released records.old chosen.«record») }
    ensures rising { IsRising prefix_cmp best.new }
    ensures pooled { ArePooled records.new }
{
    match best.insert(prefix, chosen) {
        Ok(None) => Ok(()),
        Ok(Some(old)) => {
            records.release(old.record);
            Ok(())
        }
        Err(chosen) => {
            records.release(chosen.record);
            Err(AllocError)
        }
    }
}

/// The same as [`remove_sent`] of a best route.
pub(crate) fn remove_chosen(records: &mut Pool, best: &mut Tree<Chosen>, prefix: Prefix)
    requires pooled { ArePooled records.old }
    requires all { AllByRecursion (λ e. IsSome (record_at records.old e.1.«record»)) best.old }
    ensures best { best.new ≡ without prefix_cmp best.old prefix }
    ensures records { records.new
        ≡ given_up records.old (option_map (λ c. c.«record») (value_at prefix_cmp best.old prefix)) }
    ensures rising { IsRising prefix_cmp best.new }
    ensures pooled { ArePooled records.new }
{
    if let Some(chosen) = best.remove(prefix) {
        records.release(chosen.record);
    }
}
