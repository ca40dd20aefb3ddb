//! What accepted configurations have.
use std::alloc::{AllocError, Global};
use std::test::Fail;
use xbgp_config::{Config, read_config};

const THREE_PEERS: &str = "[speaker]
as = 65000
id = \"192.0.2.254\"
address = \"192.0.2.254\"
[[peer]]
as = 65001
address = \"192.0.2.1\"
[[peer]]
as = 65002
address = \"192.0.2.2\"
[[peer]]
as = 65003
address = \"192.0.2.3\"
";

// 3221226238 is 192.0.2.254, and the peers' addresses are 192.0.2.1 to 192.0.2.3.
const DEFAULTS: &str =
    "Side { number: 0, asn: 65000, address: 3221226238, id: 3221226238, kind: 0 } 90 100
PeerEntry { asn: 65001, address: 3221225985 }
PeerEntry { asn: 65002, address: 3221225986 }
PeerEntry { asn: 65003, address: 3221225987 }
";

const FULL: &str = "cost = [{next_hop = '192.0.2.9', cost = 7}]
[speaker]
networks = ['198.51.100.77/24']
local_pref = 200
hold = 180
address = '192.0.2.254'
id = '192.0.2.253'
as = 65000
";

// The network is 198.51.100.0/24, without its host bits, and the next hop 192.0.2.9.
const ALL_KEYS: &str =
    "Side { number: 0, asn: 65000, address: 3221226238, id: 3221226237, kind: 0 } 180 200
Prefix { addr: 3325256704, len: 24 }
CostEntry { next_hop: 3221225993, cost: 7 }
";

// Its networks, peers and costs, a line for each.
fn push_networks(text: &mut String, config: &Config) -> Result<(), AllocError> {
    for i in 0..config.networks.len() {
        write!(text, "{:?}\n", config.networks.get(i))?;
    }
    Ok(())
}

fn push_peers(text: &mut String, config: &Config) -> Result<(), AllocError> {
    for i in 0..config.peers.len() {
        write!(text, "{:?}\n", *config.peers.get(i))?;
    }
    Ok(())
}

fn push_costs(text: &mut String, config: &Config) -> Result<(), AllocError> {
    for i in 0..config.costs.len() {
        write!(text, "{:?}\n", *config.costs.get(i))?;
    }
    Ok(())
}

fn text_of(alloc: Global, config: &Config) -> Result<String, AllocError> {
    let (hold, preference) = (config.hold, config.local_pref);
    let mut text = format!(in alloc; "{:?} {hold} {preference}\n", config.local)?;
    push_networks(&mut text, config)?;
    push_peers(&mut text, config)?;
    push_costs(&mut text, config)?;
    Ok(text)
}

#[test]
fn defaults_are_taken(rt: HostRuntime) -> Result<(), Fail> {
    let config = read_config(rt.alloc(), THREE_PEERS.as_bytes())?;
    assert_eq!(rt; text_of(rt.alloc(), &config)?.as_str(), DEFAULTS);
    Ok(())
}

#[test]
fn keys_are_read_in_any_order(rt: HostRuntime) -> Result<(), Fail> {
    let config = read_config(rt.alloc(), FULL.as_bytes())?;
    assert_eq!(rt; text_of(rt.alloc(), &config)?.as_str(), ALL_KEYS);
    Ok(())
}
