// The parties of routes, and what the configuration says of prefixes and next hops.
ghost use Rattle.std.specs.Prelude.{◌≡◌, ◌≤◌, ◌==◌, length, find, unwrap_or};
ghost use Rattle.std.specs.Option.{option_map};
ghost use Rattle.std.specs.List.{list_any};
ghost use Rattle.xbgp_config.specs.Configs.{IsConfig, same_prefix};
ghost use Rattle.spk_model.specs.Sources.{is_established, is_network as is_local, cost_of as cost_of_hop};
ghost use Rattle.spk_model.specs.Sources.{side_of as side_in};

use bgp_fsm::{Session, State};
use spk_native::{EXTERNAL, INTERNAL};
use xb_domain::Side;
use xb_values::Prefix;
use xbgp_config::{Config, Costs, Networks};

/// Whether routes are exchanged in a session.
pub fn is_up(session: &Session) -> bool
    ensures { result ≡ is_established session.now.session.state }
{
    matches!(session.state(), State::Established)
}

/// The speaker as a party of its routes. A configuration is always one that may be accepted.
pub fn local_of(config: &Config) -> Side
    ensures value { result ≡ config.now.local }
    ensures kept { IsConfig config.now }
{
    config.local
}

/// The degree of preference of a route without LOCAL_PREF.
pub fn local_pref_of(config: &Config) -> u32
    ensures { result ≡ config.now.local_pref }
{
    config.local_pref
}

/// A party of a route: the speaker, which is number 0, or a peer with the identifier that its OPEN said.
pub fn side_of(config: &Config, sessions: &[Session], number: u32) -> Side
    requires number { number ≤ length config.now.peers }
    requires count { length sessions.now ≡ length config.now.peers }
    ensures { result ≡ side_in config.now sessions.now number }
{
    if number == 0 {
        return config.local;
    }
    let i = number as usize - 1;
    let entry = config.peers.get(i);
    let kind = if config.local.asn == entry.asn {
        INTERNAL
    } else {
        EXTERNAL
    };
    Side {
        number,
        asn: entry.asn,
        address: entry.address,
        id: sessions[i].peer_id(),
        kind,
    }
}

// Whether two prefixes are the same.
fn is_same(a: Prefix, b: Prefix) -> bool
    ensures { result ≡ same_prefix a b }
{
    a == b
}

// Whether a prefix is one of some networks.
fn has_network(networks: &Networks, prefix: Prefix) -> bool
    ensures { result ≡ list_any (same_prefix prefix) networks.now }
{
    for i in 0..networks.len() {
        if is_same(prefix, networks.get(i)) {
            return true;
        }
    }
    false
}

/// Whether a prefix is one of the networks that the speaker originates.
pub fn is_network(config: &Config, prefix: Prefix) -> bool
    ensures { result ≡ is_local config.now prefix }
{
    has_network(&config.networks, prefix)
}

// The cost of a next hop among some, 0 if it is not there.
fn cost_in(costs: &Costs, hop: u32) -> u32
    ensures { result ≡ unwrap_or (option_map (λ c. c.cost) (find (λ c. c.next_hop == hop) costs.now)) 0 }
{
    for i in 0..costs.len() {
        let entry = costs.get(i);
        if entry.next_hop == hop {
            return entry.cost;
        }
    }
    0
}

/// The interior cost of a next hop, 0 if none is configured.
pub fn cost_of(config: &Config, hop: u32) -> u32
    ensures { result ≡ cost_of_hop config.now hop }
{
    cost_in(&config.costs, hop)
}
