use bgp_write::{Packer, write_keepalive, write_notice, write_open, write_open4};
use std::process::Abort;
use std::test::Fail;
use xb_values::{Buf, Prefix};
use xb_wire::numbers::MAX_MESSAGE;

const OPEN: [u8; 29] = [
    255, 255, 255, 255, 255, 255, 255, 255, 255, 255, 255, 255, 255, 255, 255, 255, 0, 0x1d, 1, 4,
    0xfd, 0xe8, 0, 0x5a, 0xc0, 0, 2, 0xfe, 0,
];

// An OPEN of AS 200000 with the AS number in its capability.
const WIDE_OPEN: [u8; 37] = [
    255, 255, 255, 255, 255, 255, 255, 255, 255, 255, 255, 255, 255, 255, 255, 255, 0, 0x25, 1, 4,
    0x5b, 0xa0, 0, 0x5a, 0xc0, 0, 2, 0xfe, 8, 2, 6, 0x41, 4, 0, 3, 0x0d, 0x40,
];

const KEEPALIVE: [u8; 19] = [
    255, 255, 255, 255, 255, 255, 255, 255, 255, 255, 255, 255, 255, 255, 255, 255, 0, 0x13, 4,
];

// The NOTIFICATION for a length field of 4,097.
const NOTIFICATION: [u8; 23] = [
    255, 255, 255, 255, 255, 255, 255, 255, 255, 255, 255, 255, 255, 255, 255, 255, 0, 0x17, 3, 1,
    2, 0x10, 1,
];

// ORIGIN 0, AS_PATH 65000 65001, NEXT_HOP 192.0.2.254.
const SECTION: [u8; 20] = [
    0x40, 1, 1, 0, 0x40, 2, 6, 2, 2, 0xfd, 0xe8, 0xfd, 0xe9, 0x40, 3, 4, 0xc0, 0, 2, 0xfe,
];

const ANNOUNCEMENT: [u8; 45] = [
    255, 255, 255, 255, 255, 255, 255, 255, 255, 255, 255, 255, 255, 255, 255, 255, 0, 0x2d, 2, 0,
    0, 0, 0x14, 0x40, 1, 1, 0, 0x40, 2, 6, 2, 2, 0xfd, 0xe8, 0xfd, 0xe9, 0x40, 3, 4, 0xc0, 0, 2,
    0xfe, 8, 0x0a,
];

const WITHDRAWAL: [u8; 25] = [
    255, 255, 255, 255, 255, 255, 255, 255, 255, 255, 255, 255, 255, 255, 255, 255, 0, 0x19, 2, 0,
    2, 8, 0x0a, 0, 0,
];

fn expect(rt: &impl Abort, out: &Buf, message: &[u8]) {
    assert_eq!(rt; out.as_slice(), message);
}

#[test]
fn control_messages_are_written(rt: HostRuntime) -> Result<(), Fail> {
    let mut out = Buf::make(rt.alloc(), MAX_MESSAGE)?;
    write_open(&mut out, 65000, 90, 0xc000_02fe);
    expect(&rt, &out, &OPEN);
    write_open4(&mut out, 200_000, 90, 0xc000_02fe);
    expect(&rt, &out, &WIDE_OPEN);
    write_notice(&mut out, 1, 2, &[0x10, 1]);
    expect(&rt, &out, &NOTIFICATION);
    write_keepalive(&mut out);
    expect(&rt, &out, &KEEPALIVE);
    Ok(())
}

#[test]
fn updates_are_written(rt: HostRuntime) -> Result<(), Fail> {
    let mut out = Buf::make(rt.alloc(), MAX_MESSAGE)?;
    let prefix = Prefix::new(0x0a00_0000, 8).ok_or("prefix")?;
    let mut announcement = Packer::announce(&mut out, &SECTION);
    let announced = announcement.push(prefix);
    announcement.finish();
    expect(&rt, &out, &ANNOUNCEMENT);
    let mut withdrawal = Packer::withdrawals(&mut out);
    let withdrawn = withdrawal.push(prefix);
    withdrawal.finish();
    expect(&rt, &out, &WITHDRAWAL);
    assert!(rt; announced && withdrawn);
    Ok(())
}
