use crate::hex::octets;
use bgp_check::{check_section, check_section4, check_update, check_update4};
use std::alloc::{AllocError, Global};
use std::process::Abort;
use std::test::Fail;
use xb_wire::Notice;

// In each row an attribute in hexadecimal, and the subcode of its fault, or 0.
const ATTRIBUTES: &str = "40010100 0
40010102 0
5001000101 0
4f010100 0
40010103 6
400100 5
4001020303 5
80010100 4
80010103 4
00010100 4
60010100 4
c0010100 4
400200 0
4002040201fde9 0
40020a0102000100020201fde9 0
4002020200 11
4002040001fde9 11
4002040301fde9 11
4002030201fd 11
4002050201fde902 11
c00200 4
c002020200 4
400304c0000201 0
40030401000000 0
4003047e000001 0
40030480000001 0
400304dfffffff 0
40030400000001 8
4003047f000001 8
400304e0000001 8
400304ffffffff 8
400303c00002 5
400305c000020100 5
c00304c0000201 4
80040400000000 0
800404ffffffff 0
800403000000 5
8004050000000000 5
c0040400000000 4
40040400000000 4
40050400000064 0
400503000064 5
4005050000000064 5
80050400000064 4
400600 0
40060100 5
800600 4
c00706fde9c0000201 0
e00706fde9c0000201 0
c00705fde9c00002 5
c00707fde9c000020100 5
800706fde9c0000201 4
a00706fde9c0000201 4
400706fde9c0000201 4
800800 0
c0080400000000 0
e0ff0100 0
a0c800 0
800000 0
d0c8000101 0
400800 2
40000100 2
00ff00 2
60c8020102 2";

// In each row an attribute in hexadecimal, and the subcodes of its fault with AS numbers of two octets and of four, or
// 0.
const WIDTHS: &str = "40010100 0 0
40010103 6 6
400200 0 0
4002040201fde9 0 11
40020602010000fde9 11 0
c00706fde9c0000201 0 5
c0070800030d40c0000201 5 0";

// In each row withdrawn prefixes, section and announced prefixes in hexadecimal, then the subcode of the first
// fault, or 0, and its data; `-` is no octets.
const UPDATES: &str = "- - - 0 -
200a000001 - - 0 -
00080a - - 0 -
210a00000100 - - 10 -
200a0000 - - 10 -
080a09c0 - - 10 -
21 4001010040010100 - 10 -
- 40 - 1 -
- 400101 - 1 -
- 50c80001 - 1 -
- 80010100400304c00002 - 1 -
- 8001010040010100 - 1 -
- 4001010040010109 - 1 -
- 400101008004040000000040010100 - 1 -
- 80c80080880080c900 - 0 -
- 80c80080880080c90080c800 - 1 -
- 80010100 - 4 80010100
- 4002020200 - 11 -
- 400202020080010100 - 11 -
- 40010100400304e0000001 - 8 400304e0000001
- 400101004002040201fde9 - 0 -
- 400101004002040201fde9 080a 3 03
- 40010100400304c0000201 080a 3 02
- 4002040201fde9 080a 3 01
- - 080a 3 01
- 80010100 080a 4 80010100
- 400101004002040201fde9400304c0000201 080a 0 -
- 400304c00002014002040201fde940010100 200a00000100 0 -
- 400101004002040201fde9400304c0000201 210a00000100 10 -
- 400101004002040201fde9400304c0000201 080a09c0 10 -
- - 21 3 01";

// In each row a body in hexadecimal, whose length fields fit or do not, and the subcode of its fault, or 0.
const LENGTHS: &str = "- 1
000000 1
00000000 0
00000001 1
00010000 1
0001000000 0
0001000001 1
ffffffffff 1";

fn push_part(body: &mut Vec<u8>, part: &[u8]) -> Result<(), AllocError> {
    let len = u16::try_from(part.len()).unwrap_or(0);
    body.extend_from_slice(&len.to_be_bytes())?;
    body.extend_from_slice(part)
}

fn body_of(
    alloc: Global,
    withdrawn: &str,
    section: &str,
    nlri: &str,
) -> Result<Vec<u8>, AllocError> {
    let mut body = Vec::new(alloc);
    push_part(&mut body, &octets(alloc, withdrawn)?)?;
    push_part(&mut body, &octets(alloc, section)?)?;
    body.extend_from_slice(&octets(alloc, nlri)?)?;
    Ok(body)
}

fn notice<'a>(subcode: &str, extra: &'a [u8]) -> Option<Notice<'a>> {
    match subcode.parse() {
        Ok(0) | Err(_) => None,
        Ok(subcode) => Some(Notice {
            code: 3,
            subcode,
            extra,
        }),
    }
}

// An attribute is judged as its row says, alone and in an UPDATE.
fn expect_attribute(rt: &(impl AllocGlobal + Abort), row: &str) -> Result<(), Fail> {
    let (text, subcode) = row.split_once(' ').ok_or("no subcode")?;
    let attribute = octets(rt.alloc(), text)?;
    let body = body_of(rt.alloc(), "-", text, "-")?;
    let told: &[u8] = if subcode == "11" { &[] } else { &attribute };
    let wanted = notice(subcode, told);
    let seen = (check_section(&attribute, false), check_update(&body).err());
    assert_eq!(rt; seen, (wanted, wanted), "at {text}");
    Ok(())
}

#[test]
fn each_attribute_is_judged_by_its_row(rt: HostRuntime) -> Result<(), Fail> {
    for row in ATTRIBUTES.lines() {
        expect_attribute(&rt, row)?;
    }
    Ok(())
}

fn expect_update(rt: &(impl AllocGlobal + Abort), row: &str) -> Result<(), Fail> {
    let words: Vec<&str> = row.split(' ').collect(rt.alloc())?;
    let [withdrawn, section, nlri, subcode, data] = words.as_slice() else {
        return Err("no row".into());
    };
    let told = octets(rt.alloc(), data)?;
    let body = body_of(rt.alloc(), withdrawn, section, nlri)?;
    assert_eq!(rt;
        check_update(&body).err(),
        notice(subcode, &told),
        "at {row}"
    );
    Ok(())
}

#[test]
fn a_path_and_an_aggregator_are_judged_in_either_width(rt: HostRuntime) -> Result<(), Fail> {
    let alloc = rt.alloc();
    for row in WIDTHS.lines() {
        let mut words = row.split(' ');
        let text = words.next().ok_or("no attribute")?;
        let attribute = octets(alloc, text)?;
        let body = body_of(alloc, "-", text, "-")?;
        let told: &[u8] = if text.starts_with("4002") {
            &[]
        } else {
            &attribute
        };
        let two = notice(words.next().ok_or("no subcode")?, told);
        assert_eq!(rt; check_section(&attribute, false), two, "at {row}");
        assert_eq!(rt; check_update(&body).err(), two, "at {row}");
        let four = notice(words.next().ok_or("no subcode")?, told);
        assert_eq!(rt; check_section4(&attribute, false), four, "at {row}");
        assert_eq!(rt; check_update4(&body).err(), four, "at {row}");
    }
    Ok(())
}

#[test]
fn the_first_fault_of_a_body_is_returned(rt: HostRuntime) -> Result<(), Fail> {
    for row in UPDATES.lines() {
        expect_update(&rt, row)?;
    }
    Ok(())
}

#[test]
fn lengths_of_parts_fill_a_body(rt: HostRuntime) -> Result<(), Fail> {
    for row in LENGTHS.lines() {
        let (text, subcode) = row.split_once(' ').ok_or("no subcode")?;
        let body = octets(rt.alloc(), text)?;
        assert_eq!(rt; check_update(&body).err(), notice(subcode, &[]), "at {row}");
    }
    Ok(())
}

// One optional attribute that fills a message of 4,096 octets.
#[test]
fn the_longest_body_is_accepted(rt: HostRuntime) -> Result<(), Fail> {
    let mut body = octets(rt.alloc(), "00000fe9d0c80fe5")?;
    body.resize(4077, 0)?;
    let update = check_update(&body).ok().ok_or("a fault")?;
    assert_eq!(rt; update.section(), &body[4..]);
    Ok(())
}
