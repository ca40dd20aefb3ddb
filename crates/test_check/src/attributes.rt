use bgp_attr::{Attr, AttrFault, Attrs, Overrun, attr_rule, path_ok};
use std::test::Fail;

// ORIGIN, AS_PATH and NEXT_HOP, then a header that needs one octet more than are left.
const SECTION: [u8; 22] = [
    0x40, 1, 1, 0, 0x40, 2, 4, 2, 1, 0xfd, 0xe9, 0x40, 3, 4, 192, 0, 2, 1, 0xd0, 200, 0, 1,
];

// What a walk over it returns.
const STEPS: [Option<Result<Attr<'static>, Overrun>>; 5] = [
    Some(Ok(Attr {
        flags: 0x40,
        code: 1,
        value: &[0],
        raw: &[0x40, 1, 1, 0],
        at: 0,
    })),
    Some(Ok(Attr {
        flags: 0x40,
        code: 2,
        value: &[2, 1, 0xfd, 0xe9],
        raw: &[0x40, 2, 4, 2, 1, 0xfd, 0xe9],
        at: 4,
    })),
    Some(Ok(Attr {
        flags: 0x40,
        code: 3,
        value: &[192, 0, 2, 1],
        raw: &[0x40, 3, 4, 192, 0, 2, 1],
        at: 11,
    })),
    Some(Err(Overrun { at: 18 })),
    None,
];

#[test]
fn a_walk_returns_parts_up_to_an_overrun(rt: HostRuntime) -> Result<(), Fail> {
    let mut attrs = Attrs::new(&SECTION);
    for step in &STEPS {
        assert_eq!(rt; attrs.next(), *step);
    }
    Ok(())
}

// The code, the flags and the value of an attribute, and its first fault.
const FAULTS: [(u8, u8, &[u8], Option<AttrFault>); 4] = [
    (1, 0x40, &[0], None),
    (1, 0x80, &[0], Some(AttrFault::Flags)),
    (2, 0x40, &[2, 0], Some(AttrFault::Path)),
    (200, 0x40, &[], Some(AttrFault::Unrecognized)),
];

#[test]
fn the_first_fault_of_an_attribute_is_returned(rt: HostRuntime) {
    for (code, flags, value, fault) in &FAULTS {
        assert_eq!(rt; attr_rule(*code, *flags, value), *fault, "at {code}");
    }
}

#[test]
fn segments_fill_a_path(rt: HostRuntime) {
    assert!(rt; path_ok(&[2, 1, 0xfd, 0xe9, 1, 2, 0, 1, 0, 2]));
    assert!(rt; !path_ok(&[2, 1, 0xfd]));
}
