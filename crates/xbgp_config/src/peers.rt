//! The peers, in the order of the text, which gives them their numbers.
ghost use Rattle.std.specs.Prelude.{◌≡◌, ◌<◌, ◌-◌, ◌^◌, length, map, ◌==◌, ◌||◌};
ghost use Rattle.std.specs.List.{list_any};
ghost use Rattle.toml.specs.View.{view};
ghost use Rattle.xb_fields.specs.Fields.{judged_entries};
ghost use Rattle.xb_fields.specs.Outcomes.{Gives};
ghost use Rattle.xbgp_config.specs.Configs.{peer_fields, peer_entry};

use crate::limits::MAX_AS;
use crate::lists::{PeerEntry, Peers};
use crate::texts::required_host;
use std::alloc::Global;
use toml::Value;
use xb_domain::{BadKind, Part};
use xb_fields::{FieldError, FieldFault, Location, required_number, table_with};

// What a peer's table says.
#[tactic(auto, unfolding(crate::specs::Configs::peer_fields))]
fn peer_fields(index: u32, value: &Value) -> Result<PeerEntry, FieldFault>
    ensures { result ≡ peer_fields index (view value.now) }
{
    let at = Location::new(Part::Peer, index);
    let table = table_with(at, &["as", "address"], value)?;
    let asn = required_number(at, "as", 1, MAX_AS, table)?;
    let address = required_host(at, "address", table)?;
    Ok(PeerEntry { asn, address })
}

fn has_address(peers: &[PeerEntry], address: u32) -> bool
    ensures { result ≡ list_any (λ p. address == p.address) peers.now }
{
    peers.iter().any(|peer| address == peer.address)
}

fn is_taken(own: u32, earlier: &[PeerEntry], address: u32) -> bool
    ensures { result ≡ (address == own || list_any (λ p. address == p.address) earlier.now) }
{
    address == own || has_address(earlier, address)
}

fn read_peer(
    own: u32,
    index: u32,
    earlier: &[PeerEntry],
    value: &Value,
) -> Result<PeerEntry, FieldFault>
    ensures { result ≡ peer_entry own index earlier.now (view value.now) }
{
    let peer = peer_fields(index, value)?;
    if is_taken(own, earlier, peer.address) {
        return Err(Location::new(Part::Peer, index).fault(BadKind::Double));
    }
    Ok(peer)
}

/// Reads the peers in order. `Double` for an address that an earlier peer has, or the speaker, whose address is `own`.
pub fn read_peers(alloc: Global, own: u32, values: &[Value]) -> Result<Peers, FieldError>
    requires { length values.now < 2 ^ 32 - 1 }
    ensures { Gives result (judged_entries (peer_entry own) (map view values.now)) }
{
    let mut items = Vec::new(alloc);
    for (i, value) in values.iter().enumerate() {
        let peer = read_peer(own, i as u32 + 1, &items, value)?;
        items.push(peer)?;
    }
    Ok(Peers { items })
}
