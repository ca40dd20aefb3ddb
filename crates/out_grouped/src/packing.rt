// The loops that pack a message.
ghost use Rattle.std.specs.Prelude.{◌≡◌, ◌≤◌, ℕ, List, [], false, Some};
ghost use Rattle.std.specs.Bool.{OnTrue};
ghost use Rattle.std.specs.Str.{bytes_eq};
ghost use Rattle.xb_words.specs.Table.{first_of as first_in};
ghost use Rattle.xb_values.specs.Prefixes.{Prefix, prefix_cmp};
ghost use Rattle.xb_wire.specs.Messages.{IsMessage};
ghost use Rattle.bgp_write.specs.Packers.{packed_so_far, buffer_of, reference_of};
ghost use Rattle.bgp_write.specs.Packings.{announcing, withdrawing};
ghost use Rattle.bgp_write.specs.Pending.{section_of};
ghost use Rattle.bgp_write.specs.Written.{Replaces};
ghost use Rattle.out_grouped.specs.Slots.{adv_in, told_in, is_fresh, is_gone, waits_with, keys_where, IsSound, Keeps};
ghost use Rattle.out_grouped.specs.Waits.{Has};
ghost use Rattle.out_grouped.specs.Groups.{group_at, IsGrouped};
ghost use Rattle.out_grouped.specs.Sending.{announcement_from, formed_by, withdrawal_from};

use crate::entries::{Entries, forget, next_gone, section_at, tell};
use crate::groups::{Group, Groups, drop_group, first_of};
use crate::waiting::Waiting;
use bgp_write::Packer;
use xb_values::{Buf, Prefix};
use xb_wire::numbers::MAX_MESSAGE;

// Packs the prefixes that wait to be withdrawn, from the first on, as far as the message has room.
fn pack_withdrawals(
    entries: &mut Entries,
    gone: &mut Waiting,
    packer: &mut Packer<'_>,
    first: Prefix,
)
    requires sound { IsSound entries.old.entries }
    requires waits { Has gone.old (keys_where is_gone entries.old.entries) }
    requires first { Some first ≡ first_in (keys_where is_gone entries.old.entries) }
    requires packer { packed_so_far packer.old ≡ withdrawing }
    ensures keeps { Keeps is_gone entries.old.entries entries.new.entries }
    ensures waits { Has gone.new (keys_where is_gone entries.new.entries) }
    ensures formed { formed_by (packed_so_far packer.new) entries.new.entries
        ≡ withdrawal_from [] entries.old.entries }
    ensures same_reference { reference_of packer.new ≡ reference_of packer.old }
    ensures capacity { (buffer_of packer.new).capacity ≡ (buffer_of packer.old).capacity }
{
    let mut left = first;
    'prefixes: while packer.push(left) {
        forget(entries, left);
        gone.remove_first();
        let Some(next) = next_gone(entries, gone) else {
            return;
        };
        left = next;
    }
}

/// Writes the withdrawal of the prefixes that wait for it, from the first on, and forgets them.
pub(crate) fn withdraw(entries: &mut Entries, gone: &mut Waiting, first: Prefix, out: &mut Buf)
    requires room { MAX_MESSAGE ≤ out.old.capacity }
    requires sound { IsSound entries.old.entries }
    requires waits { Has gone.old (keys_where is_gone entries.old.entries) }
    requires first { Some first ≡ first_in (keys_where is_gone entries.old.entries) }
    ensures keeps { Keeps is_gone entries.old.entries entries.new.entries }
    ensures waits { Has gone.new (keys_where is_gone entries.new.entries) }
    ensures told { told_in entries.new.entries ≡ (withdrawal_from [] entries.old.entries).told }
    ensures written { Replaces out.old out.new (withdrawal_from [] entries.old.entries).message }
    ensures message { IsMessage out.new.octets }
{
    let mut packer = Packer::withdrawals(out);
    pack_withdrawals(entries, gone, &mut packer, first);
    packer.finish();
}

// Packs the prefixes of a group, which wait with the section that is announced, as far as the message has room.
fn pack_group(
    entries: &mut Entries,
    fresh: &mut Waiting,
    group: &mut Group,
    packer: &mut Packer<'_>,
)
    requires sound { IsSound entries.old.entries }
    requires waits { Has fresh.old (keys_where is_fresh entries.old.entries) }
    requires packer { packed_so_far packer.old ≡ announcing (packed_so_far packer.old).section }
    requires group { group.old.keys ≡ keys_where (waits_with (packed_so_far packer.old).section) entries.old.entries }
    ensures keeps { Keeps (waits_with (packed_so_far packer.old).section) entries.old.entries entries.new.entries }
    ensures waits { Has fresh.new (keys_where is_fresh entries.new.entries) }
    ensures group { group.new.keys ≡ keys_where (waits_with (packed_so_far packer.old).section) entries.new.entries }
    ensures formed { formed_by (packed_so_far packer.new) entries.new.entries
        ≡ announcement_from (packed_so_far packer.old).section [] entries.old.entries }
    ensures same_reference { reference_of packer.new ≡ reference_of packer.old }
    ensures capacity { (buffer_of packer.new).capacity ≡ (buffer_of packer.old).capacity }
{
    'prefixes: while let Some(prefix) = first_of(group) {
        if !packer.push(prefix) {
            return;
        }
        tell(entries, prefix);
        fresh.set(prefix, false);
        let _ = group.pop_first();
    }
}

// Packs the group of the section that is announced, with which a prefix waits. Whether the group is then empty is
// returned.
fn pack_announcement(
    entries: &mut Entries,
    fresh: &mut Waiting,
    groups: &mut Groups,
    packer: &mut Packer<'_>,
    first: Prefix,
) -> bool
    requires sound { IsSound entries.old.entries }
    requires waits { Has fresh.old (keys_where is_fresh entries.old.entries) }
    requires groups { IsGrouped groups.old entries.old.entries }
    requires packer { packed_so_far packer.old ≡ announcing (section_of (adv_in entries.old.entries) first) }
    ensures sound { IsSound entries.new.entries }
    ensures adv { adv_in entries.new.entries ≡ adv_in entries.old.entries }
    ensures gone { keys_where is_gone entries.new.entries ≡ keys_where is_gone entries.old.entries }
    ensures waits { Has fresh.new (keys_where is_fresh entries.new.entries) }
    ensures groups { IsGrouped groups.new entries.new.entries }
    ensures empty { OnTrue result (group_at groups.new (section_of (adv_in entries.old.entries) first) ≡ []) }
    ensures formed { formed_by (packed_so_far packer.new) entries.new.entries
        ≡ announcement_from (section_of (adv_in entries.old.entries) first) [] entries.old.entries }
    ensures same_reference { reference_of packer.new ≡ reference_of packer.old }
    ensures capacity { (buffer_of packer.new).capacity ≡ (buffer_of packer.old).capacity }
{
    if let Some(group) = groups.get_mut(section_at(entries, first)) {
        pack_group(entries, fresh, group, packer);
        return group.is_empty();
    }
    false
}

/// Writes the announcement of the prefixes that wait with the section of a prefix.
pub(crate) fn announce(
    entries: &mut Entries,
    fresh: &mut Waiting,
    groups: &mut Groups,
    first: Prefix,
    out: &mut Buf,
)
    requires room { MAX_MESSAGE ≤ out.old.capacity }
    requires sound { IsSound entries.old.entries }
    requires waits { Has fresh.old (keys_where is_fresh entries.old.entries) }
    requires first { Some first ≡ first_in (keys_where is_fresh entries.old.entries) }
    requires groups { IsGrouped groups.old entries.old.entries }
    ensures sound { IsSound entries.new.entries }
    ensures adv { adv_in entries.new.entries ≡ adv_in entries.old.entries }
    ensures gone { keys_where is_gone entries.new.entries ≡ keys_where is_gone entries.old.entries }
    ensures waits { Has fresh.new (keys_where is_fresh entries.new.entries) }
    ensures groups { IsGrouped groups.new entries.new.entries }
    ensures told { let section = section_of (adv_in entries.old.entries) first in
        told_in entries.new.entries ≡ (announcement_from section [] entries.old.entries).told }
    ensures written { let section = section_of (adv_in entries.old.entries) first in
        Replaces out.old out.new (announcement_from section [] entries.old.entries).message }
    ensures message { IsMessage out.new.octets }
{
    let mut packer = Packer::announce(out, section_at(entries, first));
    let emptied = pack_announcement(entries, fresh, groups, &mut packer, first);
    packer.finish();
    if emptied {
        drop_group(groups, section_at(entries, first));
    }
}
