//! Tests of what the speaker is to be made of: the table of a peer gives back the route that was put, routes of equal
//! meaning share a record, what a peer is told has the worked messages, and the lines of a report have their worked
//! texts.
#![tactic(auto)]

ghost use Rattle.std.specs.Prelude.{◌≡◌, ◌≤◌, true, false, MatchOption};
ghost use Rattle.xb_words.specs.Table.{value_at};
ghost use Rattle.xb_values.specs.Prefixes.{prefix_cmp};
ghost use Rattle.bgp_attr.specs.Routes.{canon};

use bgp_attr::MAX_CANONICAL;
use rib_table::PeerTable;
use xb_values::{Buf, Prefix};
use xbgp_view::write_section;

/// Replaces the content of `out` by the canonical section of a prefix's route. False, with `out` unchanged, if the
/// table has no such route.
pub fn section_at(table: &PeerTable, prefix: Prefix, out: &mut Buf) -> bool
    requires { MAX_CANONICAL ≤ out.old.capacity }
    ensures { MatchOption (value_at prefix_cmp table.now prefix)
        ((result ≡ false) × (out.new ≡ out.old))
        (λ route. (result ≡ true) × (out.new ≡ record out.old { octets = canon route })) }
{
    let Some(list) = table.get(prefix) else {
        return false;
    };
    write_section(list, out);
    true
}

#[cfg(test)]
mod grouped;
#[cfg(test)]
mod shared;
#[cfg(test)]
mod tests;
