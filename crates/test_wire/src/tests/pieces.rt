use crate::next_open;
use bgp_frame::{Frames, HeaderFault, Next};
use bgp_open::{OpenSeen4, OpenWant};
use std::process::Abort;
use std::test::Fail;

// The header of an UPDATE whose length field is 4,097.
const LONG: [u8; 19] = [
    255, 255, 255, 255, 255, 255, 255, 255, 255, 255, 255, 255, 255, 255, 255, 255, 16, 1, 2,
];

// An OPEN of AS 65001 with hold time 90 and identifier 192.0.2.1, and a KEEPALIVE.
const GREETING: [u8; 48] = [
    255, 255, 255, 255, 255, 255, 255, 255, 255, 255, 255, 255, 255, 255, 255, 255, 0, 29, 1, 4,
    0xfd, 0xe9, 0, 90, 0xc0, 0, 2, 1, 0, 255, 255, 255, 255, 255, 255, 255, 255, 255, 255, 255,
    255, 255, 255, 255, 255, 0, 19, 4,
];

// All of a piece is taken, and then the next message is this one.
fn expect(rt: &impl Abort, frames: &mut Frames, piece: &[u8], next: Next) {
    assert_eq!(rt; (frames.feed(piece), frames.next()), (piece.len(), next));
}

fn expect_body(rt: &impl Abort, frames: &Frames, body: &[u8]) {
    assert_eq!(rt; frames.body(), body);
}

#[test]
fn messages_come_from_single_octets(rt: HostRuntime) -> Result<(), Fail> {
    let mut frames = Frames::make(rt.alloc())?;
    for octet in &GREETING[..28] {
        expect(&rt, &mut frames, &[*octet], Next::More);
    }
    expect(
        &rt,
        &mut frames,
        &GREETING[28..],
        Next::Whole { kind: 1, len: 29 },
    );
    expect_body(&rt, &frames, &GREETING[19..29]);
    expect(&rt, &mut frames, &[], Next::Whole { kind: 4, len: 19 });
    expect_body(&rt, &frames, &[]);
    expect(&rt, &mut frames, &[], Next::More);
    Ok(())
}

#[test]
fn a_length_is_refused_once_the_header_is_there(rt: HostRuntime) -> Result<(), Fail> {
    let fault = Next::Fault(HeaderFault::Length(4097));
    let mut frames = Frames::make(rt.alloc())?;
    expect(&rt, &mut frames, &LONG[..18], Next::More);
    expect(&rt, &mut frames, &LONG[18..], fault);
    expect(&rt, &mut frames, &[], fault);
    frames.clear();
    expect(&rt, &mut frames, &[], Next::More);
    Ok(())
}

#[test]
fn an_open_is_accepted_once_it_is_whole(rt: HostRuntime) -> Result<(), Fail> {
    let mut frames = Frames::make(rt.alloc())?;
    let want = OpenWant { peer_as: 65001 };
    let seen = OpenSeen4 {
        hold: 90,
        id: 0xc000_0201,
        wide: false,
    };
    for (piece, open) in [
        (&GREETING[..28], None),
        (&GREETING[28..], Some(seen)),
        (&[], None),
    ] {
        assert_eq!(rt; frames.feed(piece), piece.len());
        assert_eq!(rt; next_open(&mut frames, &want), open);
    }
    Ok(())
}
