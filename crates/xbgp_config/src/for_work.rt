//! The configuration on which generated events are played: a speaker with three external peers and an internal one.
ghost use Rattle.std.specs.Prelude.{◌≡◌, ◌≤◌, ◌<◌, ◌^◌, IfOk};
ghost use Rattle.xbgp_config.specs.WorkConfig.{work_address, work_peer, work_config, is_work_internal};

use crate::config::Config;
use crate::lists::{Costs, Networks, PeerEntry, Peers};
use std::alloc::{AllocError, Global};
use xb_domain::Side;

/// The AS number of the speaker and of its internal peer.
pub const WORK_AS: u32 = 65_000;

/// How many peers there are. The last is internal.
pub const WORK_PEERS: u32 = 4;

// The speaker's own number in the network of the peers.
const OWN_HOST: u32 = 254;

// The address 10.0.0.`host`.
fn work_address(host: u32) -> u32
    requires { host ≤ OWN_HOST }
    ensures { result ≡ work_address host }
{
    0x0a00_0000 + host
}

/// Whether the peer of a number has the speaker's AS number.
pub fn is_work_internal(number: u32) -> bool
    ensures { result ≡ is_work_internal number }
{
    number == WORK_PEERS
}

/// The peer of a number, from 1, in [`Config::for_work`].
pub fn work_peer(number: u32) -> PeerEntry
    requires { number ≤ WORK_PEERS }
    ensures peer { result ≡ work_peer number }
    ensures asn { result.asn < 2 ^ 16 }
{
    let asn = if is_work_internal(number) {
        WORK_AS
    } else {
        WORK_AS + number
    };
    PeerEntry {
        asn,
        address: work_address(number),
    }
}

// The speaker as a side.
fn work_speaker() -> Side
    ensures { result ≡ work_config.local }
{
    let address = work_address(OWN_HOST);
    Side {
        number: 0,
        asn: WORK_AS,
        address,
        id: address,
        kind: 0,
    }
}

// The peers by rising number.
fn work_peers(alloc: Global) -> Result<Peers, AllocError>
    ensures { IfOk result (λ peers. peers ≡ work_config.peers) }
{
    let peers = [work_peer(1), work_peer(2), work_peer(3), work_peer(4)];
    Ok(Peers {
        items: Vec::from_array(alloc, peers)?,
    })
}

impl Config {
    /// The configuration on which generated events are played. The error is want of memory.
    pub fn for_work(alloc: Global) -> Result<Config, AllocError>
        ensures { IfOk result (λ c. c ≡ work_config) }
    {
        Ok(Config {
            local: work_speaker(),
            hold: 0,
            local_pref: 100,
            networks: Networks {
                items: Vec::new(alloc),
            },
            peers: work_peers(alloc)?,
            costs: Costs {
                items: Vec::new(alloc),
            },
        })
    }
}
