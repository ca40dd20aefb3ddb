use bgp_check::check_update;
use bgp_frame::{Frames, Next};
use bgp_open::{OpenSeen4, OpenWant, read_open4};
use bgp_write::{Packer, write_keepalive, write_notice, write_open, write_open4};
use std::alloc::Global;
use std::process::Abort;
use std::test::Fail;
use xb_values::{Buf, Prefix};
use xb_wire::numbers::MAX_MESSAGE;

// ORIGIN, AS_PATH and NEXT_HOP of a route by AS 65001 with next hop 192.0.2.1.
const ROUTE: [u8; 18] = [
    0x40, 1, 1, 0, 0x40, 2, 4, 2, 1, 0xfd, 0xe9, 0x40, 3, 4, 192, 0, 2, 1,
];

// The type and the body of a message whose octets come in pieces of one size.
fn read_back(alloc: Global, octets: &[u8], piece: usize) -> Result<(u8, Vec<u8>), Fail> {
    let mut frames = Frames::make(alloc)?;
    let mut seen = None;
    for start in 0..octets.len() {
        if start % piece.max(1) == 0 {
            let end = octets.len().min(start.saturating_add(piece));
            let _ = frames.feed(&octets[start..end]);
            if let Next::Whole { kind, len: _ } = frames.next() {
                seen = Some((kind, Vec::from_slice(alloc, frames.body())?));
            }
        }
    }
    Ok(seen.ok_or("no message")?)
}

// A message comes back, in single octets and as a whole, with this type and body.
fn expect(
    rt: &(impl AllocGlobal + Abort),
    message: &Buf,
    kind: u8,
    body: &[u8],
) -> Result<(), Fail> {
    for piece in [1, MAX_MESSAGE] {
        let (seen, octets) = read_back(rt.alloc(), message.as_slice(), piece)?;
        assert_eq!(rt; (seen, octets.as_slice()), (kind, body));
    }
    Ok(())
}

#[test]
fn control_messages_are_read_again(rt: HostRuntime) -> Result<(), Fail> {
    let mut out = Buf::make(rt.alloc(), MAX_MESSAGE)?;
    write_keepalive(&mut out);
    expect(&rt, &out, 4, &[])?;
    write_notice(&mut out, 3, 4, &[0x80, 1, 1, 0]);
    expect(&rt, &out, 3, &[3, 4, 0x80, 1, 1, 0])
}

// What an OPEN says that comes in pieces of one size.
fn open_of(alloc: Global, message: &Buf, peer_as: u32, piece: usize) -> Result<OpenSeen4, Fail> {
    let (kind, body) = read_back(alloc, message.as_slice(), piece)?;
    if kind != 1 || body.len() < 10 {
        return Err("no OPEN".into());
    }
    let seen = read_open4(&body, &OpenWant { peer_as }).ok();
    Ok(seen.ok_or("refused")?)
}

#[test]
fn an_open_is_read_again(rt: HostRuntime) -> Result<(), Fail> {
    let mut plain = Buf::make(rt.alloc(), MAX_MESSAGE)?;
    write_open(&mut plain, 65001, 90, 0xc000_0201);
    let mut wide = Buf::make(rt.alloc(), MAX_MESSAGE)?;
    write_open4(&mut wide, 200_000, 90, 0xc000_0201);
    for (message, peer_as, is_wide) in [(&plain, 65001, false), (&wide, 200_000, true)] {
        let open = OpenSeen4 {
            hold: 90,
            id: 0xc000_0201,
            wide: is_wide,
        };
        for piece in [1, MAX_MESSAGE] {
            assert_eq!(rt; open_of(rt.alloc(), message, peer_as, piece)?, open);
        }
    }
    Ok(())
}

// An UPDATE without a fault comes back with these withdrawn prefixes, section and announced prefixes.
fn expect_update(
    rt: &(impl AllocGlobal + Abort),
    message: &Buf,
    parts: (&[u8], &[u8], &[u8]),
) -> Result<(), Fail> {
    for piece in [1, MAX_MESSAGE] {
        let (kind, body) = read_back(rt.alloc(), message.as_slice(), piece)?;
        assert_eq!(rt; kind, 2);
        let update = check_update(&body).ok().ok_or("a fault")?;
        assert_eq!(rt;
            (update.withdrawn(), update.section(), update.nlri()),
            parts
        );
    }
    Ok(())
}

#[test]
fn an_announcement_is_read_again(rt: HostRuntime) -> Result<(), Fail> {
    let prefix = Prefix::new(0x0a00_0000, 8).ok_or("prefix")?;
    let mut out = Buf::make(rt.alloc(), MAX_MESSAGE)?;
    let mut packer = Packer::announce(&mut out, &ROUTE);
    assert!(rt; packer.push(prefix));
    packer.finish();
    expect_update(&rt, &out, (&[], &ROUTE, &[8, 10]))
}

#[test]
fn a_withdrawal_is_read_again(rt: HostRuntime) -> Result<(), Fail> {
    let prefix = Prefix::new(0x0a00_0000, 8).ok_or("prefix")?;
    let mut out = Buf::make(rt.alloc(), MAX_MESSAGE)?;
    let mut packer = Packer::withdrawals(&mut out);
    assert!(rt; packer.push(prefix));
    packer.finish();
    expect_update(&rt, &out, (&[8, 10], &[], &[]))
}
