//! Numbers that are stored and loaded, and ranges that are lent.
use bpf_mem::{Memory, Room};
use std::test::Fail;

// The address, the size and the value of a store, and whether it is done.
const STORES: [(u64, usize, u64, bool); 4] = [
    (0x1000_01f8, 8, 0x0807_0605_0403_0201, true),
    (0x2000_1ffc, 4, 0x1_0000_0005, true),
    (0x1000_01f9, 8, 1, false),
    (0x3000_0000, 1, 1, false),
];

// The address and the size of a load, and what it returns after these stores.
const LOADS: [(u64, usize, Option<u64>); 7] = [
    (0x1000_0000, 8, Some(0)),
    (0x1000_01f8, 1, Some(1)),
    (0x1000_01fe, 2, Some(0x0807)),
    (0x2000_1ffc, 4, Some(5)),
    (0x3000_0000, 2, Some(0x6261)),
    (0x3000_0002, 2, None),
    (0xffff_ffff_ffff_ffff, 1, None),
];

fn store(memory: &mut Memory<'_>, addr: u64, size: usize, value: u64) -> bool {
    match size {
        1 | 2 | 4 | 8 => memory.store(addr, size, value),
        _ => false,
    }
}

fn load(memory: &Memory<'_>, addr: u64, size: usize) -> Option<u64> {
    match size {
        1 | 2 | 4 | 8 => memory.load(addr, size),
        _ => None,
    }
}

#[test]
fn numbers_are_stored_lowest_octet_first(rt: HostRuntime) -> Result<(), Fail> {
    let mut room = Room::make(rt.alloc())?;
    let mut memory = Memory::over(&mut room, b"abc");
    for (addr, size, value, done) in &STORES {
        assert_eq!(rt;
            store(&mut memory, *addr, *size, *value),
            *done,
            "at {addr:x}"
        );
    }
    for (addr, size, value) in &LOADS {
        assert_eq!(rt; load(&memory, *addr, *size), *value, "at {addr:x}");
    }
    Ok(())
}

// The address and the length of a range, and its octets, after 9 was written at the front of the heap.
const RANGES: [(u64, u64, Option<&[u8]>); 4] = [
    (0x3000_0001, 2, Some(b"bc")),
    (0x2000_0000, 2, Some(&[9, 0])),
    (7, 0, Some(b"")),
    (0x3000_0002, 2, None),
];

#[test]
fn ranges_lend_their_octets(rt: HostRuntime) -> Result<(), Fail> {
    let mut room = Room::make(rt.alloc())?;
    let mut memory = Memory::over(&mut room, b"abc");
    assert!(rt; memory.is_writable(0x2000_0000, 2));
    memory.range_mut(0x2000_0000, 2).ok_or("no heap")?[0] = 9;
    assert!(rt; memory.range_mut(0x3000_0000, 1).is_none());
    for (addr, len, octets) in &RANGES {
        assert_eq!(rt; memory.range(*addr, *len), *octets, "at {addr:x}");
    }
    assert_eq!(rt; memory.window_len(), 3);
    Ok(())
}
