use super::{done, expect, message, refused, update};
use std::test::Fail;
use xbgp_top::Status;

const HEARD: &[&str] = &["heard", "x"];

const JUDGE: &[&str] = &["judge", "x"];

const JUDGE4: &[&str] = &["judge4", "x"];

// Prefixes that an UPDATE announces, and the table.
const TABLES: [(&[u8], &str); 2] = [
    (
        &[8, 10],
        "10.0.0.0/8 400101004002040201fde9400304c0000201\nend\n",
    ),
    // host bits are cleared
    (
        &[13, 10, 7],
        "10.0.0.0/13 400101004002040201fde9400304c0000201\nend\n",
    ),
];

#[test]
fn tables_are_printed(rt: HostRuntime) -> Result<(), Fail> {
    for (prefixes, text) in &TABLES {
        let stream = update(rt.alloc(), prefixes)?;
        expect(&rt, &stream, b"", &[done(HEARD, text)])?;
    }
    Ok(())
}

#[test]
fn empty_tables_are_printed(rt: HostRuntime) -> Result<(), Fail> {
    expect(&rt, b"", b"", &[done(HEARD, "end\n")])?;
    let empty = message(rt.alloc(), 2, &[0, 0, 0, 0])?;
    expect(&rt, &empty, b"", &[done(HEARD, "end\n")])
}

// ORIGIN twice, the second with value 9.
const TWICE: [u8; 12] = [0, 0, 0, 8, 0x40, 1, 1, 0, 0x40, 1, 1, 9];

// An announcement without NEXT_HOP.
const NO_NEXT_HOP: [u8; 17] = [
    0, 0, 0, 11, 0x40, 1, 1, 0, 0x40, 2, 4, 2, 1, 0xfd, 0xe9, 8, 10,
];

// Bodies of UPDATEs, and what is printed.
const BODIES: [(&[u8], &str); 6] = [
    (&[0, 0, 0, 0], "0 clean\nend\n"),
    (&TWICE, "0 notice 3 1 -\nend\n"),
    (&NO_NEXT_HOP, "0 notice 3 3 03\nend\n"),
    // nothing is announced
    (
        &[0, 0, 0, 11, 0x40, 1, 1, 0, 0x40, 2, 4, 2, 1, 0xfd, 0xe9],
        "0 clean\nend\n",
    ),
    (&[0, 0, 0, 4, 0x80, 1, 1, 0], "0 notice 3 4 80010100\nend\n"),
    (&[0, 0, 0, 5, 0x40, 2, 2, 2, 0], "0 notice 3 11 -\nend\n"),
];

#[test]
fn messages_are_judged(rt: HostRuntime) -> Result<(), Fail> {
    for (body, text) in &BODIES {
        let stream = message(rt.alloc(), 2, body)?;
        expect(&rt, &stream, b"", &[done(JUDGE, text)])?;
    }
    Ok(())
}

// Bodies of UPDATEs that announce a prefix, with AS numbers of two octets and of four, and what is printed with two and
// with four.
const WIDTHS: [(&[u8], &str, &str); 2] = [
    (
        &[
            0, 0, 0, 18, 0x40, 1, 1, 0, 0x40, 2, 4, 2, 1, 0xfd, 0xe9, 0x40, 3, 4, 192, 0, 2, 1, 8,
            10,
        ],
        "0 clean\nend\n",
        "0 notice 3 11 -\nend\n",
    ),
    (
        &[
            0, 0, 0, 20, 0x40, 1, 1, 0, 0x40, 2, 6, 2, 1, 0, 0, 0xfd, 0xe9, 0x40, 3, 4, 192, 0, 2,
            1, 8, 10,
        ],
        "0 notice 3 11 -\nend\n",
        "0 clean\nend\n",
    ),
];

#[test]
fn as_numbers_have_two_octets_or_four(rt: HostRuntime) -> Result<(), Fail> {
    for (body, two, four) in &WIDTHS {
        let stream = message(rt.alloc(), 2, body)?;
        expect(&rt, &stream, b"", &[done(JUDGE, two), done(JUDGE4, four)])?;
    }
    Ok(())
}

// An UPDATE of 4,096 octets, of which an unknown optional attribute has the most.
#[test]
fn the_longest_message_is_judged(rt: HostRuntime) -> Result<(), Fail> {
    let mut body = Vec::from_slice(rt.alloc(), &[0, 0, 0x0f, 0xe9, 0xd0, 0xc8, 0x0f, 0xe5])?;
    body.extend_from_slice(&[0; 4_069])?;
    let stream = message(rt.alloc(), 2, &body)?;
    expect(&rt, &stream, b"", &[done(JUDGE, "0 clean\nend\n")])
}

#[test]
fn offsets_are_told(rt: HostRuntime) -> Result<(), Fail> {
    let alloc = rt.alloc();
    let mut stream = message(alloc, 4, &[])?;
    stream.extend_from_slice(&message(alloc, 2, &TWICE)?)?;
    let judged = done(JUDGE, "0 other\n19 notice 3 1 -\nend\n");
    expect(&rt, &stream, b"", &[judged])?;
    let _ = stream.pop();
    let status = Status::BadStream(19);
    let cut = refused(JUDGE, status, "fault stream 19\n");
    let cut4 = refused(JUDGE4, status, "fault stream 19\n");
    expect(&rt, &stream, b"", &[cut, cut4])
}
