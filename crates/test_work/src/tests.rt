//! Expected events were computed by another program, from the description of the generator alone.
use std::alloc::{AllocError, Global};
use std::process::Abort;
use std::test::Fail;
use work_gen::{Work, next_into};
use xb_domain::Event;
use xb_values::Buf;
use xb_wire::numbers::{MARKER, MAX_MESSAGE};
use xbgp_config::{Config, WORK_PEERS, is_work_internal, work_peer};

// The events of the number 1 and the count 6, as lines of a log; the markers of messages are left out.
const FIRST: &str = "start 1
up 1
in 1 001d0104fde900000a00000100
in 1 001304
start 2
up 2
in 2 001d0104fdea00000a00000200
in 2 001304
start 3
up 3
in 3 001d0104fdeb00000a00000300
in 3 001304
start 4
up 4
in 4 001d0104fde800000a00000400
in 4 001304
in 3 003302000000184001010040020a0204fdebf69b1af7852a4003040a00000318ac19cc
in 3 001b02000418ac1bf20000
in 1 002d0200000012400101024002040201fde94003040a00000118ac1a0c
in 2 002f0200000014400101004002060202fdea43b14003040a00000218ac1b8d
in 1 001b02000418ac10510000
in 4 0036020000001b4001010240020602020ecba76b4003040a0000044005040000006e18ac121c
drain 1
drain 2
drain 3
drain 4
";

// The side of the speaker with its hold time and its preference, and the peers: 167772414 is 10.0.0.254, and the peers'
// addresses are 10.0.0.1 to 10.0.0.4.
const CONFIGURED: &str =
    "Side { number: 0, asn: 65000, address: 167772414, id: 167772414, kind: 0 } 0 100 0 0
PeerEntry { asn: 65001, address: 167772161 }
PeerEntry { asn: 65002, address: 167772162 }
PeerEntry { asn: 65003, address: 167772163 }
PeerEntry { asn: 65000, address: 167772164 }
";

// A digest of all octets of events, their kinds and peers: 64 bits of Fowler, Noll and Vo.
#[derive(Drop)]
struct Digest {
    value: u64,
}

impl Digest {
    fn new() -> Digest {
        Digest {
            value: 0xcbf2_9ce4_8422_2325,
        }
    }

    fn add(&mut self, octets: &[u8]) {
        for octet in octets {
            self.value = (self.value ^ u64::from(*octet)).wrapping_mul(0x0100_0000_01b3);
        }
    }

    fn add_event(&mut self, event: Event<'_>) {
        match event {
            Event::Start(peer) => self.add(&[b's', (peer % 256) as u8]),
            Event::Up(peer) => self.add(&[b'u', (peer % 256) as u8]),
            Event::Octets(peer, octets) => {
                self.add(&[b'i', (peer % 256) as u8]);
                self.add(octets);
            }
            Event::Drain(peer) => self.add(&[b'd', (peer % 256) as u8]),
            _ => self.add(b"?"),
        }
    }
}

// An event as a line of a log.
fn push_line(text: &mut String, event: Event<'_>) -> Result<(), AllocError> {
    match event {
        Event::Start(peer) => write!(text, "start {peer}\n"),
        Event::Up(peer) => write!(text, "up {peer}\n"),
        Event::Octets(peer, octets) => {
            write!(text, "in {peer} ")?;
            let (_, body) = octets.split_at(MARKER.min(octets.len()));
            for octet in body {
                write!(text, "{octet:02x}")?;
            }
            write!(text, "\n")
        }
        Event::Drain(peer) => write!(text, "drain {peer}\n"),
        _ => write!(text, "?\n"),
    }
}

// How many events there are, up to 2,000, and their digest.
fn count_and_digest(alloc: Global, number: u64, count: u32) -> Result<(u32, u64), AllocError> {
    let mut work = Work::new(number, count);
    let mut digest = Digest::new();
    for i in 0..2_000 {
        let mut octets = Buf::make(alloc, MAX_MESSAGE)?;
        match work.next(&mut octets) {
            Some(event) => digest.add_event(event),
            None => return Ok((i, digest.value)),
        }
    }
    Ok((2_000, digest.value))
}

#[test]
fn first_events(rt: HostRuntime) -> Result<(), Fail> {
    let mut work = Work::new(1, 6);
    let mut text = String::new(rt.alloc());
    for _ in 0..26 {
        let mut octets = Buf::make(rt.alloc(), MAX_MESSAGE)?;
        if let Some(event) = next_into(&mut octets, &mut work) {
            push_line(&mut text, event)?;
        }
    }
    assert_eq!(rt; text.as_str(), FIRST);
    let mut octets = Buf::make(rt.alloc(), MAX_MESSAGE)?;
    assert!(rt; next_into(&mut octets, &mut work).is_none());
    assert!(rt; work.next(&mut octets).is_none());
    Ok(())
}

#[test]
fn no_update_but_sessions_and_drains(rt: HostRuntime) -> Result<(), Fail> {
    assert_eq!(rt;
        count_and_digest(rt.alloc(), 0, 0)?,
        (20, 14_419_801_451_040_069_997)
    );
    Ok(())
}

#[test]
fn peers_are_drained_after_each_hundredth_update(rt: HostRuntime) -> Result<(), Fail> {
    assert_eq!(rt;
        count_and_digest(rt.alloc(), u64::MAX, 100)?,
        (124, 5_745_379_556_061_649_633)
    );
    assert_eq!(rt;
        count_and_digest(rt.alloc(), 1, 300)?,
        (332, 13_659_561_395_785_906_688)
    );
    assert_eq!(rt;
        count_and_digest(rt.alloc(), 5, 1_000)?,
        (1_060, 13_884_426_296_758_021_234)
    );
    Ok(())
}

#[test]
fn the_same_number_gives_the_same_events(rt: HostRuntime) -> Result<(), Fail> {
    let once = count_and_digest(rt.alloc(), 1, 300)?;
    assert_eq!(rt; count_and_digest(rt.alloc(), 1, 300)?, once);
    Ok(())
}

#[test]
fn configuration_has_four_peers(rt: HostRuntime) -> Result<(), Fail> {
    let config = Config::for_work(rt.alloc())?;
    let (hold, preference) = (config.hold, config.local_pref);
    let (networks, costs) = (config.networks.len(), config.costs.len());
    let mut text = format!(in rt.alloc();
        "{:?} {hold} {preference} {networks} {costs}\n",
        config.local
    )?;
    for i in 0..config.peers.len() {
        write!(text, "{:?}\n", *config.peers.get(i))?;
    }
    assert_eq!(rt; text.as_str(), CONFIGURED);
    Ok(())
}

#[test]
fn the_last_peer_is_internal(rt: HostRuntime) -> Result<(), Fail> {
    assert!(rt; is_work_internal(WORK_PEERS));
    assert!(rt; !is_work_internal(1));
    assert_eq!(rt; work_peer(2).asn, 65_002);
    Ok(())
}
