use crate::hex::octets;
use bgp_attr::{path_ok, path_ok4};
use bgp_path::{Segments, merge_into, narrow_into, widen_into};
use std::alloc::{AllocError, Global};
use std::test::Fail;

// In each row a path with AS numbers of two octets in hexadecimal, and the same with four.
const WIDENED: &str = "- -
0201fde9 02010000fde9
0103000700085ba0 0103000000070000000800005ba0
0202fde9ffff010100070201fdea 02020000fde90000ffff01010000000702010000fdea";

// In each row a path with AS numbers of four octets in hexadecimal, and the same with two.
const NARROWED: &str = "- -
020200030d400000fdea 02025ba0fdea
02020000ffff00010000 0202ffff5ba0
0102ffffffff000000070201fffffffe 01025ba0000702015ba0";

// In each row an AS_PATH, an AS4_PATH, and the path that they say together, in hexadecimal (RFC 6793, section 4.2.3).
// The AS4_PATH is longer, also if its AS numbers are fewer; as long; shorter, with a cut in a sequence, after a set,
// before a set, between two sequences, and in a sequence after a set; and empty.
const MERGED: &str = "0201fde9 020200030d400000fdea 02010000fde9
0103fde900070008 020200030d400000fdea 01030000fde90000000700000008
02025ba0fdea 020200030d400000fdea 020200030d400000fdea
0102fde9000702015ba0 0102000000070000fde9020100030d40 0102000000070000fde9020100030d40
0203fde95ba0fdea 020200030d400000fdea 02010000fde9020200030d400000fdea
0103fde90007000802015ba0 020100030d40 01030000fde90000000700000008020100030d40
0202fde95ba0010200070008 01020000000700000008 02020000fde900005ba001020000000700000008
0201fde902025ba0fdea 020200030d400000fdea 02010000fde9020200030d400000fdea
0101fde90203000700085ba0 020200030d4000000009 01010000fde9020100000007020200030d4000000009
0202fde90007 - 02020000fde900000007
- - -";

// Room for a text, and room for one octet less.
fn rooms(alloc: Global, text: &[u8]) -> Result<(Vec<u8>, Vec<u8>), AllocError> {
    let room = vec![in alloc; 0u8; text.len()]?;
    let less = vec![in alloc; 0u8; text.len().saturating_sub(1)]?;
    Ok((room, less))
}

#[test]
fn a_path_is_written_in_the_other_width(rt: HostRuntime) -> Result<(), Fail> {
    let alloc = rt.alloc();
    for row in WIDENED.lines() {
        let (value, wanted) = row.split_once(' ').ok_or("no path")?;
        let value = octets(alloc, value)?;
        let wanted = octets(alloc, wanted)?;
        let (mut room, mut less) = rooms(alloc, &wanted)?;
        let path = value.as_slice();
        assert!(rt; path_ok(path), "at {row}");
        let written = widen_into(path, &mut room);
        assert_eq!(rt; written, Some(wanted.len()), "at {row}");
        assert_eq!(rt; room, wanted, "at {row}");
        let fits = widen_into(path, &mut less).is_some();
        assert_eq!(rt; fits, wanted.is_empty(), "at {row}");
    }
    for row in NARROWED.lines() {
        let (value, wanted) = row.split_once(' ').ok_or("no path")?;
        let value = octets(alloc, value)?;
        let wanted = octets(alloc, wanted)?;
        let (mut room, mut less) = rooms(alloc, &wanted)?;
        let path = value.as_slice();
        assert!(rt; path_ok4(path), "at {row}");
        let written = narrow_into(path, &mut room);
        assert_eq!(rt; written, Some(wanted.len()), "at {row}");
        assert_eq!(rt; room, wanted, "at {row}");
        let fits = narrow_into(path, &mut less).is_some();
        assert_eq!(rt; fits, wanted.is_empty(), "at {row}");
    }
    Ok(())
}

#[test]
fn an_as_path_is_merged_with_its_as4_path(rt: HostRuntime) -> Result<(), Fail> {
    let alloc = rt.alloc();
    for row in MERGED.lines() {
        let mut words = row.split(' ');
        let value = octets(alloc, words.next().ok_or("no AS_PATH")?)?;
        let value4 = octets(alloc, words.next().ok_or("no AS4_PATH")?)?;
        let wanted = octets(alloc, words.next().ok_or("no path")?)?;
        let (mut room, mut less) = rooms(alloc, &wanted)?;
        let path = value.as_slice();
        let path4 = value4.as_slice();
        assert!(rt; path_ok(path), "at {row}");
        assert!(rt; path_ok4(path4), "at {row}");
        let written = merge_into(path, path4, &mut room);
        assert_eq!(rt; written, Some(wanted.len()), "at {row}");
        assert_eq!(rt; room, wanted, "at {row}");
        let fits = merge_into(path, path4, &mut less).is_some();
        assert_eq!(rt; fits, wanted.is_empty(), "at {row}");
    }
    Ok(())
}

#[test]
fn a_walk_over_a_path_of_four_octets_a_number(rt: HostRuntime) -> Result<(), Fail> {
    let value = [2, 2, 0, 3, 0x0d, 0x40, 0, 0, 0xfd, 0xea];
    let segments = Segments::wide(&value).ok_or("no path")?;
    assert_eq!(rt; segments.hops(), 2);
    assert_eq!(rt; segments.leftmost(), Some(200_000));
    assert!(rt; segments.contains(65002));
    let mut out = [0u8; 14];
    assert_eq!(rt; segments.prepend_into(4_200_000_000, &mut out), Some(14));
    assert_eq!(rt;
        out,
        [
            2, 3, 0xfa, 0x56, 0xea, 0, 0, 3, 0x0d, 0x40, 0, 0, 0xfd, 0xea
        ]
    );
    assert!(rt; Segments::new(&value).is_none());
    Ok(())
}
