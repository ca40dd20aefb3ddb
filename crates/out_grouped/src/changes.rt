// What a change of what is advertised does to the entries and to the groups of those that wait.
ghost use Rattle.std.specs.Prelude.{◌≡◌, Some, None, true, false, IfOk, OnOk, OnErr};
ghost use Rattle.xb_words.specs.Table.{value_at, with_value, without, IsRising};
ghost use Rattle.xb_values.specs.Prefixes.{prefix_cmp};
ghost use Rattle.bgp_write.specs.Pending.{same_section};
ghost use Rattle.out_grouped.specs.Slots.{Slots, advertised, due_of, taken_back, was_told};
ghost use Rattle.out_grouped.specs.Groups.{IsGrouped};

use crate::entries::Entries;
use crate::entry::{Entry, copy_of};
use crate::groups::{Groups, join, leave, leave_one};
use crate::waiting::{Due, Turn};
use std::alloc::{AllocError, Global};
use xb_values::Prefix;

// No message is due.
const NOTHING: Due = Due {
    fresh: false,
    gone: false,
};

// Advertises a section that was not told, with which the prefix of the entry was not advertised. The error is want of
// memory; then the entry is unchanged.
fn replace(
    entry: &mut Entry,
    groups: &mut Groups,
    alloc: Global,
    prefix: Prefix,
    section: &[u8],
) -> Result<(), AllocError>
    requires other { same_section (Some section.now) entry.old.adv ≡ false }
    requires untold { same_section (Some section.now) entry.old.told ≡ false }
    ensures ok { OnOk result (entry.new ≡ advertised (Some entry.old) section.now) }
    ensures err { OnErr result (entry.new ≡ entry.old) }
    ensures groups { (es : Slots) → IsRising prefix_cmp es → value_at prefix_cmp es prefix ≡ Some entry.old
        → IsGrouped groups.old es → IsGrouped groups.new (with_value prefix_cmp es prefix entry.new) }
{
    let copy = copy_of(alloc, section)?;
    join(groups, alloc, section, prefix)?;
    leave(groups, entry.change(copy), prefix);
    Ok(())
}

// Advertises a section that was told, with which the prefix of the entry was not advertised.
fn restore(entry: &mut Entry, groups: &mut Groups, prefix: Prefix, section: &[u8])
    requires { same_section (Some section.now) entry.old.told ≡ true }
    ensures after { entry.new ≡ advertised (Some entry.old) section.now }
    ensures groups { (es : Slots) → IsRising prefix_cmp es → value_at prefix_cmp es prefix ≡ Some entry.old
        → IsGrouped groups.old es → IsGrouped groups.new (with_value prefix_cmp es prefix entry.new) }
{
    leave(groups, entry.restore(), prefix);
}

// Advertises a section in place of what the entry of the prefix has. What is then due is returned with what was due.
// The error is want of memory; then the entry is unchanged.
fn change(
    entry: &mut Entry,
    groups: &mut Groups,
    alloc: Global,
    prefix: Prefix,
    section: &[u8],
) -> Result<Turn, AllocError>
    ensures ok { OnOk result (entry.new ≡ advertised (Some entry.old) section.now) }
    ensures before { IfOk result (λ turn. turn.before ≡ due_of (Some entry.old)) }
    ensures after { IfOk result (λ turn. turn.after ≡ due_of (Some entry.new)) }
    ensures err { OnErr result (entry.new ≡ entry.old) }
    ensures groups { (es : Slots) → IsRising prefix_cmp es → value_at prefix_cmp es prefix ≡ Some entry.old
        → IsGrouped groups.old es → IsGrouped groups.new (with_value prefix_cmp es prefix entry.new) }
{
    let before = entry.due();
    if entry.is_advertised_as(section) {
        return Ok(Turn {
            before,
            after: before,
        });
    }
    if entry.is_told_as(section) {
        restore(entry, groups, prefix, section);
        return Ok(Turn {
            before,
            after: entry.due(),
        });
    }
    replace(entry, groups, alloc, prefix, section)?;
    Ok(Turn {
        before,
        after: entry.due(),
    })
}

// Advertises a prefix that has no entry. What is then due is returned with what was due. The error is want of memory;
// then the entries are unchanged.
fn begin(
    entries: &mut Entries,
    groups: &mut Groups,
    alloc: Global,
    prefix: Prefix,
    section: &[u8],
) -> Result<Turn, AllocError>
    requires rising { IsRising prefix_cmp entries.old.entries }
    requires groups { IsGrouped groups.old entries.old.entries }
    requires absent { value_at prefix_cmp entries.old.entries prefix ≡ None }
    ensures ok { OnOk result (entries.new.entries ≡ with_value prefix_cmp entries.old.entries prefix
        (advertised None section.now)) }
    ensures before { IfOk result (λ turn. turn.before ≡ due_of None) }
    ensures after { IfOk result (λ turn. turn.after ≡ due_of (Some (advertised None section.now))) }
    ensures err { OnErr result (entries.new.entries ≡ entries.old.entries) }
    ensures groups { IsGrouped groups.new entries.new.entries }
{
    let entry = Entry::fresh(alloc, section)?;
    let after = entry.due();
    join(groups, alloc, section, prefix)?;
    match entries.insert(prefix, entry) {
        Ok(_) => Ok(Turn {
            before: NOTHING,
            after,
        }),
        Err(error) => {
            leave_one(groups, section, prefix);
            Err(error.into())
        }
    }
}

/// Advertises a prefix with a section. What is then due is returned with what was due. The error is want of memory;
/// then the entries are unchanged.
pub(crate) fn advertise(
    entries: &mut Entries,
    groups: &mut Groups,
    alloc: Global,
    prefix: Prefix,
    section: &[u8],
) -> Result<Turn, AllocError>
    requires rising { IsRising prefix_cmp entries.old.entries }
    requires groups { IsGrouped groups.old entries.old.entries }
    ensures ok { OnOk result (entries.new.entries ≡ with_value prefix_cmp entries.old.entries prefix
        (advertised (value_at prefix_cmp entries.old.entries prefix) section.now)) }
    ensures before { IfOk result (λ turn. turn.before ≡ due_of (value_at prefix_cmp entries.old.entries prefix)) }
    ensures after { IfOk result (λ turn. turn.after
        ≡ due_of (Some (advertised (value_at prefix_cmp entries.old.entries prefix) section.now))) }
    ensures err { OnErr result (entries.new.entries ≡ entries.old.entries) }
    ensures groups { IsGrouped groups.new entries.new.entries }
{
    let Some(entry) = entries.get_mut(&prefix) else {
        return begin(entries, groups, alloc, prefix, section);
    };
    change(entry, groups, alloc, prefix, section)
}

// Forgets a prefix of which nothing was told.
fn forget_fresh(entries: &mut Entries, groups: &mut Groups, prefix: Prefix)
    requires rising { IsRising prefix_cmp entries.old.entries }
    requires groups { IsGrouped groups.old entries.old.entries }
    requires untold { was_told (value_at prefix_cmp entries.old.entries prefix) ≡ false }
    ensures after { entries.new.entries ≡ without prefix_cmp entries.old.entries prefix }
    ensures groups { IsGrouped groups.new entries.new.entries }
{
    if let Some(entry) = entries.remove(&prefix) {
        leave_one(groups, &entry.into_section(), prefix);
    }
}

/// Advertises a prefix no longer. What is then due is returned with what was due.
pub(crate) fn withdraw_later(entries: &mut Entries, groups: &mut Groups, prefix: Prefix) -> Turn
    requires rising { IsRising prefix_cmp entries.old.entries }
    requires groups { IsGrouped groups.old entries.old.entries }
    ensures after { entries.new.entries
        ≡ taken_back entries.old.entries prefix (value_at prefix_cmp entries.old.entries prefix) }
    ensures before { result.before ≡ due_of (value_at prefix_cmp entries.old.entries prefix) }
    ensures due { result.after
        ≡ record { fresh = false; gone = was_told (value_at prefix_cmp entries.old.entries prefix) } }
    ensures groups { IsGrouped groups.new entries.new.entries }
{
    let Some(entry) = entries.get_mut(&prefix) else {
        return Turn {
            before: NOTHING,
            after: NOTHING,
        };
    };
    let before = entry.due();
    if !entry.is_told() {
        forget_fresh(entries, groups, prefix);
        return Turn {
            before,
            after: NOTHING,
        };
    }
    leave(groups, entry.unset(), prefix);
    Turn {
        before,
        after: entry.due(),
    }
}
