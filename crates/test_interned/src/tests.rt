ghost use Rattle.std.specs.Prelude.{◌≡◌, length, IfOk, IfSome};
ghost use Rattle.spk_model.specs.Readers.{IsPeer};

use host_interned::{Chosen, Interned};
use spk_model::{Host, Setup};
use std::alloc::{AllocError, Global};
use std::process::Abort;
use std::test::Fail;
use xb_domain::{Event, Outputs};
use xb_values::{Prefix, Steps};
use xbgp_config::read_config;
use xbgp_manifest::Manifest;

// AS 65000 with two external peers.
const CONFIG: &str = r#"[speaker]
as = 65000
id = "192.0.2.254"
address = "192.0.2.254"
[[peer]]
as = 65001
address = "192.0.2.1"
[[peer]]
as = 65002
address = "192.0.2.2"
"#;

// The OPEN of each peer.
const OPEN_1: [u8; 29] = [
    255, 255, 255, 255, 255, 255, 255, 255, 255, 255, 255, 255, 255, 255, 255, 255, 0, 29, 1, 4,
    0xfd, 0xe9, 0, 90, 192, 0, 2, 1, 0,
];

const OPEN_2: [u8; 29] = [
    255, 255, 255, 255, 255, 255, 255, 255, 255, 255, 255, 255, 255, 255, 255, 255, 0, 29, 1, 4,
    0xfd, 0xea, 0, 90, 192, 0, 2, 2, 0,
];

const KEEPALIVE: [u8; 19] = [
    255, 255, 255, 255, 255, 255, 255, 255, 255, 255, 255, 255, 255, 255, 255, 255, 0, 19, 4,
];

// An UPDATE that announces 10.0.0.0/8 and 12.0.0.0/8 with one section, and one that withdraws each.
const ANNOUNCED: [u8; 45] = [
    255, 255, 255, 255, 255, 255, 255, 255, 255, 255, 255, 255, 255, 255, 255, 255, 0, 45, 2, 0, 0,
    0, 18, 0x40, 1, 1, 0, 0x40, 2, 4, 2, 1, 0xfd, 0xe9, 0x40, 3, 4, 192, 0, 2, 1, 8, 10, 8, 12,
];

const TEN_WITHDRAWN: [u8; 25] = [
    255, 255, 255, 255, 255, 255, 255, 255, 255, 255, 255, 255, 255, 255, 255, 255, 0, 25, 2, 0, 2,
    8, 10, 0, 0,
];

const TWELVE_WITHDRAWN: [u8; 25] = [
    255, 255, 255, 255, 255, 255, 255, 255, 255, 255, 255, 255, 255, 255, 255, 255, 0, 25, 2, 0, 2,
    8, 12, 0, 0,
];

// The session of a peer comes up.
fn bring_up(
    alloc: Global,
    host: Interned,
    peer: u32,
    open: &[u8],
    out: &mut Outputs,
) -> Result<Interned, AllocError>
    requires { IsPeer (⟦<Interned as Host>⟧.built_from host) peer }
    ensures { IfOk result (λ h. ⟦<Interned as Host>⟧.built_from h ≡ ⟦<Interned as Host>⟧.built_from host) }
{
    let host = host.step(alloc, Event::Start(peer), out)?;
    let host = host.step(alloc, Event::Up(peer), out)?;
    let host = host.step(alloc, Event::Octets(peer, open), out)?;
    host.step(alloc, Event::Octets(peer, &KEEPALIVE), out)
}

// A host with two peers, if the configuration has so many.
fn make_host(alloc: Global) -> Result<Option<Interned>, Fail>
    ensures { IfOk result (λ o. IfSome o (λ h. length ((⟦<Interned as Host>⟧.built_from h).config).peers ≡ 2)) }
{
    let config = read_config(alloc, CONFIG.as_bytes())?;
    let manifest = Manifest::none(alloc)?;
    if config.peers.len() != 2 {
        return Ok(None);
    }
    Ok(Some(Interned::make(alloc, Setup { config, manifest })?))
}

// The best route of a prefix of length 8: its source and its record.
fn best(host: &Interned, address: u32) -> Option<Chosen> {
    let prefix = Prefix::new(address, 8)?;
    host.routes().get(prefix, &mut Steps::start()).copied()
}

// How many records live, and whether 10.0.0.0/8 and 12.0.0.0/8 have routes, and these one record.
#[derive(Clone, Copy, Debug, PartialEq, Eq)]
struct Kept {
    live: usize,
    ten: bool,
    twelve: bool,
    shared: bool,
}

fn look_at(host: &Interned) -> Kept {
    let ten = best(host, 0x0a00_0000);
    let twelve = best(host, 0x0c00_0000);
    Kept {
        live: host.records().live(),
        ten: ten.is_some(),
        twelve: twelve.is_some(),
        shared: ten.is_some() && ten == twelve,
    }
}

// The record of the speaker's own routes is always there.
const NONE: Kept = Kept {
    live: 1,
    ten: false,
    twelve: false,
    shared: false,
};

const BOTH: Kept = Kept {
    live: 2,
    ten: true,
    twelve: true,
    shared: true,
};

const TWELVE: Kept = Kept {
    live: 2,
    ten: false,
    twelve: true,
    shared: false,
};

// A host whose two sessions are up, if the configuration has so many peers.
fn host_up(alloc: Global, out: &mut Outputs) -> Result<Option<Interned>, Fail>
    ensures { IfOk result (λ o. IfSome o (λ h. IsPeer (⟦<Interned as Host>⟧.built_from h) 1)) }
{
    let Some(host) = make_host(alloc)? else {
        return Ok(None);
    };
    let host = bring_up(alloc, host, 1, &OPEN_1, out)?;
    Ok(Some(bring_up(alloc, host, 2, &OPEN_2, out)?))
}

// Octets come from the first peer, and then that much is kept.
fn expect_after(
    rt: &(impl AllocGlobal + Abort),
    host: Interned,
    octets: &[u8],
    wanted: Kept,
    out: &mut Outputs,
) -> Result<Interned, Fail>
    requires { IsPeer (⟦<Interned as Host>⟧.built_from host) 1 }
    ensures { IfOk result (λ h. IsPeer (⟦<Interned as Host>⟧.built_from h) 1) }
{
    let host = host.step(rt.alloc(), Event::Octets(1, octets), out)?;
    assert_eq!(rt; look_at(&host), wanted);
    Ok(host)
}

#[test]
fn prefixes_of_one_update_share_a_record(rt: HostRuntime) -> Result<(), Fail> {
    let alloc = rt.alloc();
    let mut out = Outputs::make(alloc)?;
    let host = host_up(alloc, &mut out)?.ok_or("other peers")?;
    assert_eq!(rt; look_at(&host), NONE);
    let host = expect_after(&rt, host, &ANNOUNCED, BOTH, &mut out)?;
    let host = expect_after(&rt, host, &TEN_WITHDRAWN, TWELVE, &mut out)?;
    let _host = expect_after(&rt, host, &TWELVE_WITHDRAWN, NONE, &mut out)?;
    Ok(())
}
