//! Worked chains at each point.
ghost use Rattle.std.specs.Prelude.{◌≤◌};
ghost use Rattle.bgp_attr.specs.declared.TheConstants.{MAX_CANONICAL};

use bgp_attr::MAX_CANONICAL;
use bpf_machine::Cause;
use spk_native::native_section;
use std::alloc::Global;
use std::test::Fail;
use xb_domain::{Point, Side};
use xb_values::{Buf, Prefix, push_hex};
use xbgp_manifest::{Manifest, read_manifest};
use xbgp_points::{Engine, Outcome};
use xbgp_view::{Overlay, SectionView};

const LOCAL: Side = Side {
    number: 0,
    asn: 65000,
    address: 0xc000_02fe,
    id: 0xc000_02fe,
    kind: 0,
};

const FIRST: Side = Side {
    number: 1,
    asn: 65001,
    address: 0xc000_0201,
    id: 0xc000_0201,
    kind: 1,
};

const SECOND: Side = Side {
    number: 2,
    asn: 65002,
    address: 0xc000_0202,
    id: 0xc000_0202,
    kind: 1,
};

// ORIGIN 0, AS_PATH 65001 in four octets, NEXT_HOP 192.0.2.1.
const SECTION: [u8; 20] = [
    0x40, 1, 1, 0, 0x40, 2, 6, 2, 1, 0, 0, 0xfd, 0xe9, 0x40, 3, 4, 0xc0, 0, 2, 1,
];

// The end of an UPDATE that announces 10.0.0.0/8.
const BODY: [u8; 2] = [8, 0x0a];

// What a chain is run on: a route, and buffers for its native section and for the section that programs give.
#[derive(Drop)]
struct Ground {
    prefix: Prefix,
    route: Overlay,
    native: Buf,
    out: Buf,
    ghost native_room: { MAX_CANONICAL ≤ native.capacity },
    ghost out_room: { MAX_CANONICAL ≤ out.capacity },
}

fn make_ground(alloc: Global) -> Result<Ground, Fail> {
    let mut route = Overlay::make(alloc)?;
    route.read(&SECTION);
    Ok(Ground {
        prefix: Prefix::new(0x0a00_0000, 8).ok_or("prefix")?,
        route,
        native: Buf::make(alloc, MAX_CANONICAL)?,
        out: Buf::make(alloc, MAX_CANONICAL)?,
    })
}

// The word of a point.
fn word(point: Point) -> &'static str {
    match point {
        Point::Receive => "receive",
        Point::Inbound => "inbound",
        Point::Decision => "decision",
        Point::Outbound => "outbound",
        Point::Encode => "encode",
    }
}

// A manifest with a map and the programs of some code at one point.
fn manifest_of(alloc: Global, point: Point, programs: &[&[&str]]) -> Result<Manifest, Fail> {
    let word = word(point);
    let map = "version = 1\n[[map]]\nname = 'seen'\nkey = 5\nvalue = 1\nentries = 1\n";
    let mut text = String::from_str(alloc, map)?;
    for (i, code) in programs.iter().enumerate() {
        let head = format!(in alloc;
            "[[program]]\nname = 'p{i}'\npoint = '{word}'\nfuel = 100\ncode = '"
        )?;
        text.push_str(&head)?;
        for part in *code {
            text.push_str(part)?;
        }
        text.push_str("'\n")?;
    }
    Ok(read_manifest(alloc, text.as_bytes())?)
}

// What the engine gives at a point: at 30 seconds, from the first peer, to the second one, or between them.
fn given_at(engine: &mut Engine, ground: &mut Ground, point: Point) -> Outcome {
    let Ground {
        prefix,
        route,
        native,
        out,
    } = ground;
    let best = SectionView::new(&SECTION);
    match point {
        Point::Receive => engine.receive(30, &FIRST, route, &BODY),
        Point::Inbound => engine.inbound(30, &FIRST, *prefix, route),
        Point::Decision => engine.prefer(*prefix, route, &FIRST, &best, &SECOND),
        Point::Outbound => engine.outbound(&SECOND, &FIRST, *prefix, &best, route),
        Point::Encode => {
            native_section(route, native);
            out.clear();
            engine.encode(&SECOND, &FIRST, &best, route, native.as_slice(), out)
        }
    }
}

// The route, the entry of the map, and the section.
fn left(alloc: Global, engine: &Engine, ground: &Ground) -> Result<String, Fail> {
    let mut text = Buf::make(alloc, 512)?;
    let mut section = Buf::make(alloc, 128)?;
    let _ = ground.route.section(&mut section);
    let _ = push_hex(&mut text, section.as_slice());
    let _ = text.push(b" ");
    match engine.maps().entry_after(0, None) {
        Some((key, value)) => {
            let _ = push_hex(&mut text, key);
            let _ = text.push(b"=");
            let _ = push_hex(&mut text, value);
        }
        None => {
            let _ = text.push(b"-");
        }
    }
    let _ = text.push(b" ");
    let _ = push_hex(&mut text, ground.out.as_slice());
    Ok(String::from_utf8(Vec::from_slice(alloc, text.as_slice())?)?)
}

// Sets LOCAL_PREF to 200, and says next.
const SET: &[&str] = &[
    "620afcff000000c8b701000005000000b702000040000000bfa300000000000007030000fcffffff",
    "b704000004000000850000000300000085000000010000009500000000000000",
];

// Stores past the stack.
const STORE: &[&str] = &["7a0a0000000000009500000000000000"];

// Notes the prefix in the map, and says next.
const NOTE: &[&str] = &[
    "bfa100000000000007010000f8ffffff8500000008000000720affff07000000bfa2000000000000",
    "07020000f8ffffffbfa300000000000007030000ffffffff850000000a0000008500000001000000",
    "9500000000000000",
];

// A chain.
struct Row {
    name: &'static str,
    point: Point,
    programs: &'static [&'static [&'static str]],
    // What it gives, whether it kept a write to the map, and the route, the map's entry and the section that it leaves.
    given: Outcome,
    wrote: bool,
    left: &'static str,
}

static ROWS: [Row; 15] = [
    Row {
        name: "no program",
        point: Point::Inbound,
        programs: &[],
        given: Outcome::Native,
        wrote: false,
        left: "4001010040020602010000fde9400304c0000201 - -",
    },
    Row {
        name: "an edit stays after next",
        point: Point::Inbound,
        programs: &[SET],
        given: Outcome::Native,
        wrote: false,
        left: "4001010040020602010000fde9400304c0000201400504000000c8 - -",
    },
    Row {
        name: "a failure undoes the edit of an earlier program",
        point: Point::Inbound,
        programs: &[SET, STORE],
        given: Outcome::Failed {
            program: 1,
            cause: Cause::Memory,
        },
        wrote: false,
        left: "4001010040020602010000fde9400304c0000201 - -",
    },
    Row {
        name: "a write to a map stays after next",
        point: Point::Inbound,
        programs: &[NOTE],
        given: Outcome::Native,
        wrote: true,
        left: "4001010040020602010000fde9400304c0000201 0a00000008=07 -",
    },
    Row {
        name: "a failure undoes the write of an earlier program",
        point: Point::Inbound,
        programs: &[NOTE, STORE],
        given: Outcome::Failed {
            program: 1,
            cause: Cause::Memory,
        },
        wrote: false,
        left: "4001010040020602010000fde9400304c0000201 - -",
    },
    Row {
        name: "a result that isn't listed",
        point: Point::Inbound,
        programs: &[&["b7000000090000009500000000000000"]],
        given: Outcome::Failed {
            program: 0,
            cause: Cause::BadReturn,
        },
        wrote: false,
        left: "4001010040020602010000fde9400304c0000201 - -",
    },
    Row {
        name: "a result whose lower half is listed",
        point: Point::Inbound,
        programs: &[&["180000000100000000000000010000009500000000000000"]],
        given: Outcome::Failed {
            program: 0,
            cause: Cause::BadReturn,
        },
        wrote: false,
        left: "4001010040020602010000fde9400304c0000201 - -",
    },
    Row {
        name: "route 1 at inbound",
        point: Point::Inbound,
        programs: &[&["b70100000100000085000000020000009500000000000000"]],
        given: Outcome::Failed {
            program: 0,
            cause: Cause::Misuse,
        },
        wrote: false,
        left: "4001010040020602010000fde9400304c0000201 - -",
    },
    Row {
        name: "a program without end",
        point: Point::Inbound,
        programs: &[SET, &["0500ffff000000009500000000000000"]],
        given: Outcome::Failed {
            program: 1,
            cause: Cause::Fuel,
        },
        wrote: false,
        left: "4001010040020602010000fde9400304c0000201 - -",
    },
    Row {
        name: "a message that ends with 10 is dropped",
        point: Point::Receive,
        programs: &[&[
            "0f210000000000007110ffff00000000150002000a000000b7000000010000009500000000000000",
            "b7000000020000009500000000000000",
        ]],
        given: Outcome::Verdict(2),
        wrote: false,
        left: "4001010040020602010000fde9400304c0000201 - -",
    },
    Row {
        name: "a store to the message",
        point: Point::Receive,
        programs: &[SET, &["72010000000000009500000000000000"]],
        given: Outcome::Failed {
            program: 1,
            cause: Cause::Memory,
        },
        wrote: false,
        left: "4001010040020602010000fde9400304c0000201 - -",
    },
    Row {
        name: "the lower number wins",
        point: Point::Decision,
        programs: &[&[
            "b701000000000000b7020000000000008500000007000000bf06000000000000b701000001000000",
            "b70200000000000085000000070000001f60000000000000150003000100000015000200feffffff",
            "b7000000020000009500000000000000b7000000010000009500000000000000",
        ]],
        given: Outcome::Verdict(1),
        wrote: false,
        left: "4001010040020602010000fde9400304c0000201 - -",
    },
    Row {
        name: "all is denied",
        point: Point::Outbound,
        programs: &[SET, &["b7000000020000009500000000000000"]],
        given: Outcome::Verdict(2),
        wrote: false,
        left: "4001010040020602010000fde9400304c0000201400504000000c8 - -",
    },
    Row {
        name: "an attribute is appended",
        point: Point::Encode,
        programs: &[&[
            "620afcffc0c80107bfa100000000000007010000fcffffffb702000004000000850000000c000000",
            "b7000000020000009500000000000000",
        ]],
        given: Outcome::Verdict(2),
        wrote: false,
        left: "4001010040020602010000fde9400304c0000201 - 4001010040020602010000fde9400304c0000201c0c80107",
    },
    Row {
        name: "a well-known attribute without a rule is appended",
        point: Point::Encode,
        programs: &[&[
            "620afcff40c80107bfa100000000000007010000fcffffffb702000004000000850000000c000000",
            "b7000000020000009500000000000000",
        ]],
        given: Outcome::Failed {
            program: 0,
            cause: Cause::BadOutput,
        },
        wrote: false,
        left: "4001010040020602010000fde9400304c0000201 - -",
    },
];

// Whether a failure is noted; true of another outcome.
fn is_noted(engine: &Engine, given: Outcome) -> bool {
    match given {
        Outcome::Failed { program, cause } => engine.noted(program, cause),
        _ => true,
    }
}

// What a chain gives, whether it kept a write to the map, and what it leaves.
fn played(alloc: Global, row: &Row) -> Result<(Outcome, bool, String), Fail> {
    let manifest = manifest_of(alloc, row.point, row.programs)?;
    let mut engine = Engine::make(alloc, manifest, LOCAL)?;
    let mut ground = make_ground(alloc)?;
    let given = given_at(&mut engine, &mut ground, row.point);
    if !is_noted(&engine, given) {
        return Err("a failure that isn't noted".into());
    }
    Ok((given, engine.wrote(), left(alloc, &engine, &ground)?))
}

#[test]
fn chains_at_each_point(rt: HostRuntime) -> Result<(), Fail> {
    for row in &ROWS {
        let (given, wrote, left) = played(rt.alloc(), row)?;
        assert_eq!(rt; (row.name, given, wrote), (row.name, row.given, row.wrote));
        assert_eq!(rt; left.as_str(), row.left);
    }
    Ok(())
}
