use out_grouped::GroupedOut;
use std::alloc::Global;
use std::test::Fail;
use xb_values::{Buf, Prefix};
use xb_wire::numbers::{MARKER, MAX_MESSAGE, MAX_SECTION};

// A prefix, as its address and its length, and the section with which it is then advertised, if it is.
type Change = (u32, u8, Option<&'static [u8]>);

// ORIGIN alone: IGP and EGP.
const IGP: &[u8] = &[0x40, 1, 1, 0];

const EGP: &[u8] = &[0x40, 1, 1, 1];

// ORIGIN IGP and EGP, each with an AS_PATH of 65000 and 65001, and NEXT_HOP 192.0.2.254.
const IGP_PATH: &[u8] = &[
    0x40, 1, 1, 0, 0x40, 2, 6, 2, 2, 0xfd, 0xe8, 0xfd, 0xe9, 0x40, 3, 4, 192, 0, 2, 254,
];

const EGP_PATH: &[u8] = &[
    0x40, 1, 1, 1, 0x40, 2, 6, 2, 2, 0xfd, 0xe8, 0xfd, 0xe9, 0x40, 3, 4, 192, 0, 2, 254,
];

// Changes, one after another, and the messages that then follow, without their marker.
const TOLD: [(&[Change], &[&[u8]]); 4] = [
    (
        &[
            (0x0a00_0000, 8, Some(IGP_PATH)),
            (0x0c00_0000, 8, Some(IGP_PATH)),
            (0x0b00_0000, 8, Some(EGP_PATH)),
        ],
        &[
            &[
                0, 0x2f, 2, 0, 0, 0, 20, 0x40, 1, 1, 0, 0x40, 2, 6, 2, 2, 0xfd, 0xe8, 0xfd, 0xe9,
                0x40, 3, 4, 192, 0, 2, 254, 8, 10, 8, 12,
            ],
            &[
                0, 0x2d, 2, 0, 0, 0, 20, 0x40, 1, 1, 1, 0x40, 2, 6, 2, 2, 0xfd, 0xe8, 0xfd, 0xe9,
                0x40, 3, 4, 192, 0, 2, 254, 8, 11,
            ],
        ],
    ),
    (
        &[
            (0x0a03_0000, 16, Some(IGP)),
            (0x0a02_0000, 16, Some(EGP)),
            (0x0a01_0000, 16, Some(IGP)),
            (0x0a00_0000, 8, Some(IGP)),
        ],
        &[
            &[
                0, 35, 2, 0, 0, 0, 4, 0x40, 1, 1, 0, 8, 10, 16, 10, 1, 16, 10, 3,
            ],
            &[0, 30, 2, 0, 0, 0, 4, 0x40, 1, 1, 1, 16, 10, 2],
        ],
    ),
    (
        &[
            (0x0a02_0000, 16, Some(IGP)),
            (0x0a03_0000, 16, Some(EGP)),
            (0x0a03_0000, 16, Some(IGP)),
            (0x0a01_0000, 16, None),
        ],
        &[
            &[0, 26, 2, 0, 3, 16, 10, 1, 0, 0],
            &[0, 30, 2, 0, 0, 0, 4, 0x40, 1, 1, 0, 16, 10, 2],
        ],
    ),
    (
        &[(0x0a04_0000, 16, Some(IGP)), (0x0a04_0000, 16, None)],
        &[],
    ),
];

fn is_changed(table: &mut GroupedOut, change: Change) -> bool {
    let (addr, len, section) = change;
    let Some(prefix) = Prefix::new(addr, len) else {
        return false;
    };
    let Some(section) = section else {
        table.unset(prefix);
        return true;
    };
    section.len() <= MAX_SECTION && table.set(prefix, section).is_ok()
}

// Whether the next message, after its marker, is the one that is wanted, or there is none if it is empty.
fn is_next(alloc: Global, table: &mut GroupedOut, wanted: &[u8]) -> bool {
    let Ok(mut out) = Buf::make(alloc, MAX_MESSAGE) else {
        return false;
    };
    if !table.next_message(&mut out) {
        return wanted.is_empty() && table.is_drained();
    }
    out.len() == MARKER + wanted.len() && out.as_slice().ends_with(wanted)
}

#[test]
fn a_peer_is_told_of_each_section_once(rt: HostRuntime) -> Result<(), Fail> {
    let mut table = GroupedOut::make(rt.alloc())?;
    for (changes, messages) in TOLD {
        for change in changes {
            assert!(rt; is_changed(&mut table, *change));
        }
        for message in messages {
            assert!(rt; is_next(rt.alloc(), &mut table, message));
        }
        assert!(rt; is_next(rt.alloc(), &mut table, &[]));
    }
    Ok(())
}

// The next prefix that is advertised, if its section is the one that is wanted.
fn next_with(table: &GroupedOut, after: Option<Prefix>, wanted: &[u8]) -> Option<Prefix> {
    let Some((prefix, section)) = table.adv_after(after) else {
        return None;
    };
    (section == wanted).then_some(prefix)
}

#[test]
fn each_advertised_section_is_shown(rt: HostRuntime) -> Result<(), Fail> {
    let mut table = GroupedOut::make(rt.alloc())?;
    assert!(rt; is_changed(&mut table, (0x0a01_0000, 16, Some(EGP))));
    assert!(rt; is_changed(&mut table, (0x0a00_0000, 8, Some(IGP))));
    let first = next_with(&table, None, IGP);
    assert_eq!(rt; first, Prefix::new(0x0a00_0000, 8));
    let next = next_with(&table, first, EGP);
    assert_eq!(rt; next, Prefix::new(0x0a01_0000, 16));
    assert!(rt; table.adv_after(next).is_none());
    Ok(())
}
