ghost use Rattle.std.specs.Prelude.{◌≡◌};

use crate::{best_of_three, best_of_two, is_accepted, narrowed, sent_on, widened};
use bgp_attr::MAX_CANONICAL;
use spk_native::{EXTERNAL, INTERNAL, Rank, outbound_native};
use std::test::Fail;
use xb_domain::Side;
use xb_values::Buf;
use xbgp_view::Overlay;

const LOCAL: Side = Side {
    number: 0,
    asn: 65000,
    address: 0xc00002fe,
    id: 0xc00002fe,
    kind: 0,
};

fn candidate(neighbour: u32, med: u32, address: u32) -> Rank
    ensures { result.address ≡ address }
{
    Rank {
        degree: 100,
        hops: 1,
        origin: 0,
        med,
        neighbour,
        kind: EXTERNAL,
        cost: 0,
        id: address,
        address,
    }
}

fn peer(number: u32, kind: u8) -> Side {
    Side {
        number,
        kind,
        ..LOCAL
    }
}

// ORIGIN IGP, an AS_PATH of one sequence with two AS numbers, NEXT_HOP 192.0.2.1
const LOOPED: [u8; 24] = [
    0x40, 1, 1, 0, 0x40, 2, 10, 2, 2, 0, 0, 0xfd, 0xe9, 0, 0, 0xfd, 0xe8, 0x40, 3, 4, 0xc0, 0, 2, 1,
];

const OTHER: [u8; 24] = [
    0x40, 1, 1, 0, 0x40, 2, 10, 2, 2, 0, 0, 0xfd, 0xe9, 0, 0, 0xfd, 0xea, 0x40, 3, 4, 0xc0, 0, 2, 1,
];

#[test]
fn own_as_is_rejected(rt: HostRuntime) -> Result<(), Fail> {
    assert!(rt; !is_accepted(&LOOPED, &LOCAL));
    assert!(rt; is_accepted(&OTHER, &LOCAL));
    Ok(())
}

// OTHER, LOCAL_PREF 200, and an attribute of code 200 that is optional and transitive
const OFFERED: [u8; 35] = [
    0x40, 1, 1, 0, 0x40, 2, 10, 2, 2, 0, 0, 0xfd, 0xe9, 0, 0, 0xfd, 0xea, 0x40, 3, 4, 0xc0, 0, 2,
    1, 0x40, 5, 4, 0, 0, 0, 200, 0xc0, 200, 1, 7,
];

// the same with AS 65000 in front, the local address and the partial flag, without LOCAL_PREF
const SENT_OUTSIDE: [u8; 32] = [
    0x40, 1, 1, 0, 0x40, 2, 14, 2, 3, 0, 0, 0xfd, 0xe8, 0, 0, 0xfd, 0xe9, 0, 0, 0xfd, 0xea, 0x40,
    3, 4, 0xc0, 0, 2, 0xfe, 0xe0, 200, 1, 7,
];

// OFFERED with the partial flag
const SENT_INSIDE: [u8; 35] = [
    0x40, 1, 1, 0, 0x40, 2, 10, 2, 2, 0, 0, 0xfd, 0xe9, 0, 0, 0xfd, 0xea, 0x40, 3, 4, 0xc0, 0, 2,
    1, 0x40, 5, 4, 0, 0, 0, 200, 0xe0, 200, 1, 7,
];

#[test]
fn a_route_is_sent_on(rt: HostRuntime) -> Result<(), Fail> {
    let mut overlay = Overlay::make(rt.alloc())?;
    let mut out = Buf::make(rt.alloc(), MAX_CANONICAL)?;
    assert!(rt; sent_on(&OFFERED, &peer(1, EXTERNAL), &LOCAL, &mut overlay, &mut out));
    assert_eq!(rt; out.as_slice(), SENT_OUTSIDE.as_slice());
    assert!(rt; sent_on(&OFFERED, &peer(1, INTERNAL), &LOCAL, &mut overlay, &mut out));
    assert_eq!(rt; out.as_slice(), SENT_INSIDE.as_slice());
    assert!(rt;
        !sent_on(
            &OFFERED[4..],
            &peer(1, EXTERNAL),
            &LOCAL,
            &mut overlay,
            &mut out
        )
    );
    Ok(())
}

// ORIGIN IGP, an AS_PATH with AS_TRANS, NEXT_HOP 192.0.2.1, an AS4_PATH with AS 200000
const NARROW: [u8; 29] = [
    0x40, 1, 1, 0, 0x40, 2, 6, 2, 2, 0xfd, 0xe9, 0x5b, 0xa0, 0x40, 3, 4, 0xc0, 0, 2, 1, 0xc0, 17,
    6, 2, 1, 0, 3, 0x0d, 0x40,
];

// the same with AS numbers of four octets: the AS number before those of the AS4_PATH is a segment of its own
const WIDE: [u8; 26] = [
    0x40, 1, 1, 0, 0x40, 2, 12, 2, 1, 0, 0, 0xfd, 0xe9, 2, 1, 0, 3, 0x0d, 0x40, 0x40, 3, 4, 0xc0,
    0, 2, 1,
];

// that for a session with AS numbers of two octets: the AS4_PATH has the whole AS_PATH
const NARROW_AGAIN: [u8; 37] = [
    0x40, 1, 1, 0, 0x40, 2, 8, 2, 1, 0xfd, 0xe9, 2, 1, 0x5b, 0xa0, 0x40, 3, 4, 0xc0, 0, 2, 1, 0xc0,
    17, 12, 2, 1, 0, 0, 0xfd, 0xe9, 2, 1, 0, 3, 0x0d, 0x40,
];

#[test]
fn a_route_takes_the_form_of_a_session(rt: HostRuntime) -> Result<(), Fail> {
    let mut overlay = Overlay::make(rt.alloc())?;
    let mut out = Buf::make(rt.alloc(), MAX_CANONICAL)?;
    assert!(rt; widened(&NARROW, &mut overlay, &mut out));
    assert_eq!(rt; out.as_slice(), WIDE.as_slice());
    out.clear();
    assert!(rt; narrowed(&WIDE, &mut overlay, &mut out));
    assert_eq!(rt; out.as_slice(), NARROW_AGAIN.as_slice());
    Ok(())
}

// what comes before and after 100 AS numbers of two octets each, and of four
const FRONT: [u8; 9] = [0x40, 1, 1, 0, 0x40, 2, 202, 2, 100];

const FRONT_WIDE: [u8; 10] = [0x40, 1, 1, 0, 0x50, 2, 1, 0x92, 2, 100];

const BACK: [u8; 7] = [0x40, 3, 4, 0xc0, 0, 2, 1];

#[test]
fn a_long_route_takes_the_form_of_a_session(rt: HostRuntime) -> Result<(), Fail> {
    let mut overlay = Overlay::make(rt.alloc())?;
    let mut out = Buf::make(rt.alloc(), MAX_CANONICAL)?;
    let mut narrow = [1u8; 216];
    narrow[..9].copy_from_slice(&FRONT);
    narrow[209..].copy_from_slice(&BACK);
    let mut wide = [0u8; 417];
    wide[..10].copy_from_slice(&FRONT_WIDE);
    for i in 0..100usize {
        wide[12 + 4 * i] = 1;
        wide[13 + 4 * i] = 1;
    }
    wide[410..].copy_from_slice(&BACK);
    assert!(rt; widened(&narrow, &mut overlay, &mut out));
    assert_eq!(rt; out.as_slice(), wide.as_slice());
    out.clear();
    assert!(rt; narrowed(&wide, &mut overlay, &mut out));
    assert_eq!(rt; out.as_slice(), narrow.as_slice());
    Ok(())
}

#[test]
fn internal_routes_stay_inside(rt: HostRuntime) -> Result<(), Fail> {
    assert!(rt; !outbound_native(&peer(1, INTERNAL), &peer(2, INTERNAL)));
    assert!(rt; outbound_native(&peer(1, INTERNAL), &peer(2, EXTERNAL)));
    assert!(rt; !outbound_native(&peer(1, EXTERNAL), &peer(1, EXTERNAL)));
    Ok(())
}

#[test]
fn meds_make_the_order_matter(rt: HostRuntime) -> Result<(), Fail> {
    let first = candidate(65001, 20, 1);
    let second = candidate(65002, 0, 2);
    let third = candidate(65001, 10, 3);
    assert_eq!(rt; best_of_three(first, second, third), 1);
    assert_eq!(rt; best_of_two(first, second), first);
    assert_eq!(rt; best_of_two(first, third), third);
    Ok(())
}
