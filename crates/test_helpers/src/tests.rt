//! Worked programs at each point.
ghost use Rattle.std.specs.Prelude.{◌≡◌, ℕ, ◌≤◌, IsSome};
ghost use Rattle.bpf_insn.specs.Helpers.{allows};
ghost use Rattle.bpf_insn.specs.Sound.{CallsOnly};
ghost use Rattle.xb_domain.specs.Points.{helper_allowed};
ghost use Rattle.xbgp_helpers.specs.declared.numbers.TheConstants.{MAX_BUFFER};

use crate::{run_at_decision, run_at_encode, run_at_inbound, run_at_outbound, run_at_receive};
use bpf_insn::{Code, HelperSet, load};
use bpf_machine::{Cause, End};
use bpf_mem::Room;
use std::alloc::Global;
use std::test::Fail;
use xb_domain::{Point, Side, helper_allowed};
use xb_values::{Buf, Prefix, push_hex};
use xbgp_helpers::laws;
use xbgp_helpers::numbers::{MAX_BUFFER, MINUS_1, MINUS_2, NEXT, TIME};
use xbgp_maps::{MapShape, Maps};
use xbgp_view::{Overlay, SectionView};

const FUEL: u32 = 100;

const LOCAL: Side = Side {
    number: 0,
    asn: 65000,
    address: 0xc000_02fe,
    id: 0xc000_02fd,
    kind: 0,
};

const FIRST: Side = Side {
    number: 1,
    asn: 65001,
    address: 0xc000_0201,
    id: 0xc000_0201,
    kind: 1,
};

const SECOND: Side = Side {
    number: 2,
    asn: 65002,
    address: 0xc000_0202,
    id: 0xc000_0202,
    kind: 1,
};

// ORIGIN 0, AS_PATH 65001 in four octets, NEXT_HOP 192.0.2.1.
const SECTION: [u8; 20] = [
    0x40, 1, 1, 0, 0x40, 2, 6, 2, 1, 0, 0, 0xfd, 0xe9, 0x40, 3, 4, 0xc0, 0, 2, 1,
];

// What programs are run on: a route, a map of one entry in which a run is open, and a write buffer.
#[derive(Drop)]
struct Ground {
    room: Room,
    prefix: Prefix,
    route: Overlay,
    maps: Maps,
    buffer: Buf,
    ghost open: { IsSome maps.began },
    ghost capacity: { MAX_BUFFER ≤ buffer.capacity },
}

fn make_ground(alloc: Global) -> Result<Ground, Fail> {
    let shapes = [MapShape {
        key: 5,
        value: 1,
        entries: 1,
    }];
    let mut route = Overlay::make(alloc)?;
    route.read(&SECTION);
    let mut maps = Maps::make(alloc, &shapes)?;
    maps.begin();
    Ok(Ground {
        room: Room::make(alloc)?,
        prefix: Prefix::new(0x0a00_0000, 8).ok_or("prefix")?,
        route,
        maps,
        buffer: Buf::make(alloc, MAX_BUFFER)?,
    })
}

// The helpers of a point, as the loader takes them.
fn helpers_at(point: Point) -> HelperSet
    ensures { (n : ℕ) → allows result n ≡ helper_allowed point n }
{
    let mut helpers = HelperSet::none();
    for number in NEXT..TIME + 1 {
        if helper_allowed(point, number) {
            helpers = helpers.with(number);
        }
    }
    helpers
}

// How code ends at a point: at 30 seconds, from the first peer, to the second one, or between them.
fn run_at(ground: &mut Ground, point: Point, code: &Code) -> End
    requires { CallsOnly (helper_allowed point) code.now }
{
    let Ground {
        room,
        prefix,
        route,
        maps,
        buffer,
    } = ground;
    let best = SectionView::new(&SECTION);
    match point {
        Point::Receive => run_at_receive(code, FUEL, room, &[], 30, &FIRST, route, &LOCAL, maps),
        Point::Inbound => run_at_inbound(
            code, FUEL, room, 30, &FIRST, *prefix, route, &LOCAL, maps,
        ),
        Point::Decision => run_at_decision(
            code, FUEL, room, *prefix, route, &FIRST, &best, &SECOND, &LOCAL, maps,
        ),
        Point::Outbound => run_at_outbound(
            code, FUEL, room, &SECOND, &FIRST, *prefix, &best, route, &LOCAL, maps,
        ),
        Point::Encode => {
            buffer.clear();
            run_at_encode(
                code, FUEL, room, &SECOND, &FIRST, &best, route, buffer, &LOCAL, maps,
            )
        }
    }
}

// Loads code in hexadecimal digits, and runs it.
fn ended(alloc: Global, ground: &mut Ground, point: Point, digits: &[&str]) -> Result<End, Fail> {
    let mut octets = Vec::new(alloc);
    for part in digits {
        octets.extend_from_slice(&hex::decode(alloc, *part)?)?;
    }
    let code = load(alloc, &octets, &helpers_at(point))?;
    Ok(run_at(ground, point, &code))
}

// The route, the entry of the map, and the write buffer.
fn left(alloc: Global, ground: &Ground) -> Result<String, Fail> {
    let mut text = Buf::make(alloc, 512)?;
    let mut section = Buf::make(alloc, 128)?;
    let _ = ground.route.section(&mut section);
    let _ = push_hex(&mut text, section.as_slice());
    let _ = text.push(b" ");
    match ground.maps.entry_after(0, None) {
        Some((key, value)) => {
            let _ = push_hex(&mut text, key);
            let _ = text.push(b"=");
            let _ = push_hex(&mut text, value);
        }
        None => {
            let _ = text.push(b"-");
        }
    }
    let _ = text.push(b" ");
    let _ = push_hex(&mut text, ground.buffer.as_slice());
    Ok(String::from_utf8(Vec::from_slice(alloc, text.as_slice())?)?)
}

const MISUSE: End = End::Failed(Cause::Misuse);

// What a program is, its point, its code, and how it ends.
const ENDS: [(&str, Point, &[&str], End); 27] = [
    (
        "the clock",
        Point::Receive,
        &["850000000e0000009500000000000000"],
        End::Exit(30),
    ),
    (
        "route 1 at inbound",
        Point::Inbound,
        &["b70100000100000085000000020000009500000000000000"],
        MISUSE,
    ),
    (
        "field 8",
        Point::Inbound,
        &["b70100000800000085000000060000009500000000000000"],
        MISUSE,
    ),
    (
        "field 7 is the speaker's identifier",
        Point::Receive,
        &["b70100000700000085000000060000009500000000000000"],
        End::Exit(0xc000_02fd),
    ),
    (
        "the receiver's AS",
        Point::Outbound,
        &["b70100000100000085000000060000009500000000000000"],
        End::Exit(65002),
    ),
    (
        "the source's number",
        Point::Encode,
        &["b701000001000000b70200000000000085000000070000009500000000000000"],
        End::Exit(1),
    ),
    (
        "the new route's source",
        Point::Decision,
        &["b701000001000000b70200000100000085000000070000009500000000000000"],
        End::Exit(65002),
    ),
    (
        "8,193 octets of the heap",
        Point::Inbound,
        &["b701000001200000850000000d0000009500000000000000"],
        End::Exit(MINUS_2),
    ),
    (
        "one octet of the heap, and then none",
        Point::Inbound,
        &["b701000001000000850000000d000000b701000000000000850000000d0000009500000000000000"],
        End::Exit(0x2000_0008),
    ),
    (
        "the first code",
        Point::Outbound,
        &["b701000000000000b70200000000000085000000050000009500000000000000"],
        End::Exit(16385),
    ),
    (
        "no code from 4 on",
        Point::Outbound,
        &["b701000001000000b70200000400000085000000050000009500000000000000"],
        End::Exit(MINUS_1),
    ),
    (
        "no code from 256 on",
        Point::Decision,
        &["b701000000000000b70200000001000085000000050000009500000000000000"],
        End::Exit(MINUS_1),
    ),
    (
        "a code from 257 on",
        Point::Decision,
        &["b701000000000000b70200000101000085000000050000009500000000000000"],
        MISUSE,
    ),
    (
        "NEXT_HOP, which is loaded",
        Point::Decision,
        &[
            "b701000001000000b702000003000000bfa300000000000007030000fcffffffb704000004000000",
            "850000000200000061a0fcff000000009500000000000000",
        ],
        End::Exit(0x0102_00c0),
    ),
    (
        "NEXT_HOP with room for 3",
        Point::Encode,
        &[
            "b701000000000000b702000003000000bfa300000000000007030000fcffffffb704000003000000",
            "85000000020000009500000000000000",
        ],
        End::Exit(MINUS_2),
    ),
    (
        "an absent code",
        Point::Encode,
        &[
            "b701000000000000b702000005000000bfa300000000000007030000fcffffffb704000004000000",
            "85000000020000009500000000000000",
        ],
        End::Exit(MINUS_1),
    ),
    (
        "an absent code and a range past the stack",
        Point::Encode,
        &[
            "b701000000000000b702000005000000bfa300000000000007030000fcffffffb704000005000000",
            "85000000020000009500000000000000",
        ],
        MISUSE,
    ),
    (
        "an absent code and no room anywhere",
        Point::Encode,
        &[
            "b701000000000000b702000005000000b703000000000000b7040000000000008500000002000000",
            "9500000000000000",
        ],
        End::Exit(MINUS_1),
    ),
    (
        "ORIGIN 9",
        Point::Receive,
        &[
            "720af8ff09000000b701000001000000b702000040000000bfa300000000000007030000f8ffffff",
            "b70400000100000085000000030000009500000000000000",
        ],
        End::Exit(MINUS_1),
    ),
    (
        "ORIGIN of 8,192 octets",
        Point::Receive,
        &[
            "b701000001000000b702000040000000b703000000000020b7040000002000008500000003000000",
            "9500000000000000",
        ],
        End::Exit(MINUS_1),
    ),
    (
        "an attribute of 4,096 octets",
        Point::Outbound,
        &[
            "b7010000c8000000b7020000c0000000b703000000000020b7040000001000008500000003000000",
            "9500000000000000",
        ],
        End::Exit(MINUS_2),
    ),
    (
        "AS_PATH removed",
        Point::Outbound,
        &["b70100000200000085000000040000009500000000000000"],
        End::Exit(MINUS_1),
    ),
    (
        "an absent code removed",
        Point::Outbound,
        &["b70100000500000085000000040000009500000000000000"],
        End::Exit(MINUS_1),
    ),
    (
        "a map that isn't there",
        Point::Decision,
        &[
            "b701000001000000bfa200000000000007020000f8ffffffbfa300000000000007030000ffffffff",
            "85000000090000009500000000000000",
        ],
        MISUSE,
    ),
    (
        "an absent key",
        Point::Decision,
        &[
            "b701000000000000bfa200000000000007020000f8ffffffbfa300000000000007030000ffffffff",
            "85000000090000009500000000000000",
        ],
        End::Exit(MINUS_1),
    ),
    (
        "a write buffer that is full",
        Point::Encode,
        &[
            "b701000000000020b702000000100000850000000c000000b701000000000020b702000001000000",
            "850000000c0000009500000000000000",
        ],
        End::Exit(MINUS_2),
    ),
    (
        "the lower number wins",
        Point::Decision,
        &[
            "b701000000000000b7020000000000008500000007000000bf06000000000000b701000001000000",
            "b70200000000000085000000070000001f60000000000000150003000100000015000200feffffff",
            "b7000000020000009500000000000000b7000000010000009500000000000000",
        ],
        End::Exit(1),
    ),
];

// The same with the route, the entry of the map and the write buffer that it leaves.
const LEFT: [(&str, Point, &[&str], End, &str); 6] = [
    (
        "LOCAL_PREF set",
        Point::Inbound,
        &[
            "620afcff000000c8b701000005000000b702000040000000bfa300000000000007030000fcffffff",
            "b704000004000000850000000300000085000000010000009500000000000000",
        ],
        End::Next,
        "4001010040020602010000fde9400304c0000201400504000000c8 - -",
    ),
    (
        "LOCAL_PREF set and removed",
        Point::Outbound,
        &[
            "620afcff000000c8b701000005000000b702000040000000bfa300000000000007030000fcffffff",
            "b7040000040000008500000003000000b70100000500000085000000040000009500000000000000",
        ],
        End::Exit(0),
        "4001010040020602010000fde9400304c0000201 - -",
    ),
    (
        "the prefix noted",
        Point::Inbound,
        &[
            "bfa100000000000007010000f8ffffff8500000008000000720affff07000000bfa2000000000000",
            "07020000f8ffffffbfa300000000000007030000ffffffff850000000a0000008500000001000000",
            "9500000000000000",
        ],
        End::Next,
        "4001010040020602010000fde9400304c0000201 0a00000008=07 -",
    ),
    (
        "another key in a full map",
        Point::Inbound,
        &[
            "bfa100000000000007010000f8ffffff8500000008000000720affff07000000bfa2000000000000",
            "07020000f8ffffffbfa300000000000007030000ffffffff850000000a000000bfa2000000000000",
            "07020000f7ffffffbfa300000000000007030000ffffffff850000000a0000009500000000000000",
        ],
        End::Exit(MINUS_2),
        "4001010040020602010000fde9400304c0000201 0a00000008=07 -",
    ),
    (
        "the prefix noted and forgotten",
        Point::Inbound,
        &[
            "bfa100000000000007010000f8ffffff8500000008000000720affff07000000bfa2000000000000",
            "07020000f8ffffffbfa300000000000007030000ffffffff850000000a000000bfa2000000000000",
            "07020000f8ffffff850000000b0000009500000000000000",
        ],
        End::Exit(0),
        "4001010040020602010000fde9400304c0000201 - -",
    ),
    (
        "an attribute in the write buffer",
        Point::Encode,
        &[
            "620afcffc0c80107bfa100000000000007010000fcffffffb702000004000000850000000c000000",
            "b7000000020000009500000000000000",
        ],
        End::Exit(2),
        "4001010040020602010000fde9400304c0000201 - c0c80107",
    ),
];

#[test]
fn programs_end_as_worked_out(rt: HostRuntime) -> Result<(), Fail> {
    for (name, point, digits, end) in &ENDS {
        let mut ground = make_ground(rt.alloc())?;
        assert_eq!(rt;
            ended(rt.alloc(), &mut ground, *point, digits)?,
            *end,
            "{name}"
        );
    }
    Ok(())
}

#[test]
fn programs_leave_what_they_wrote(rt: HostRuntime) -> Result<(), Fail> {
    for (name, point, digits, end, want) in &LEFT {
        let mut ground = make_ground(rt.alloc())?;
        assert_eq!(rt;
            ended(rt.alloc(), &mut ground, *point, digits)?,
            *end,
            "{name}"
        );
        assert_eq!(rt; left(rt.alloc(), &ground)?.as_str(), *want, "{name}");
    }
    Ok(())
}

#[test]
fn laws_are_stated() {
    laws::parts_are_kept();
    laws::routes_are_edited();
    laws::edits_keep();
    laws::buffers_stay_short();
    laws::runs_are_shown();
}
