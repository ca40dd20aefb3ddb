// What is kept of a peer.
ghost use Rattle.std.specs.Prelude.{◌≡◌, ◌++◌, flat_map, OnOk};
ghost use Rattle.std.specs.Map.{keys_of};
ghost use Rattle.std.specs.Option.{option_map};
ghost use Rattle.xb_words.specs.Table.{entry_after, with_keys, IsRising};
ghost use Rattle.xb_values.specs.Prefixes.{prefix_cmp};

use attr_intern::RecordId;
use out_grouped::GroupedOut;
use rib_tree::Tree;
use spk_routes::PrefixSet;
use std::alloc::AllocError;
use xb_values::Prefix;

/// The ids of the routes that a peer sent, and what the peer is advertised and was told.
#[derive(Drop)]
pub(crate) struct PeerTables {
    pub(crate) sent: Tree<RecordId>,
    pub(crate) out: GroupedOut,
}

/// Adds the prefixes that a peer sent to a set. The error is want of memory; then some may have been added.
pub(crate) fn add_sent(sent: &Tree<RecordId>, set: &mut PrefixSet) -> Result<(), AllocError>
    ensures { OnOk result (set.new ≡ with_keys prefix_cmp set.old (keys_of sent.now)) }
{
    let mut after = None;
    'prefixes: while let Some(prefix) = sent.after(after) {
        set.add(prefix)?;
        after = Some(prefix);
    }
    Ok(())
}

// The first advertised prefix after another, or the first of all.
fn told_after(out: &GroupedOut, after: Option<Prefix>) -> Option<Prefix>
    ensures prefix { result ≡ option_map (λ e. e.0) (entry_after prefix_cmp out.now.adv after) }
    ensures rising { IsRising prefix_cmp out.now.adv }
{
    match out.adv_after(after) {
        Some((prefix, _)) => Some(prefix),
        None => None,
    }
}

// Adds the prefixes that are advertised to a set.
fn add_told(out: &GroupedOut, set: &mut PrefixSet) -> Result<(), AllocError>
    ensures { OnOk result (set.new ≡ with_keys prefix_cmp set.old (keys_of out.now.adv)) }
{
    let mut after = None;
    'prefixes: while let Some(prefix) = told_after(out, after) {
        set.add(prefix)?;
        after = Some(prefix);
    }
    Ok(())
}

// Adds the prefixes that a peer sent or is advertised to a set.
fn add_known(tables: &PeerTables, set: &mut PrefixSet) -> Result<(), AllocError>
    ensures { OnOk result (set.new
        ≡ with_keys prefix_cmp set.old (keys_of tables.now.sent ++ keys_of tables.now.out.adv)) }
{
    add_sent(&tables.sent, set)?;
    add_told(&tables.out, set)
}

/// Adds the prefixes that some peers sent or are advertised to a set.
pub(crate) fn add_all_known(peers: &[PeerTables], set: &mut PrefixSet) -> Result<(), AllocError>
    ensures { OnOk result (set.new ≡ with_keys prefix_cmp set.old
        (flat_map (λ t. keys_of t.sent ++ keys_of t.out.adv) peers.now)) }
{
    'peers: for peer in peers {
        add_known(peer, set)?;
    }
    Ok(())
}
