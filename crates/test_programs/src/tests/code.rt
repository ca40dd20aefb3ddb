//! Code that is read back, and a fault of each kind.
use bpf_insn::{HelperSet, Insn, LoadError, LoadFault, LoadKind, load};
use std::alloc::Global;
use std::test::Fail;

// A 64-bit load of 0x1ffffffff into r0, and EXIT.
const WIDE: [u8; 24] = [
    0x18, 0, 0, 0, 0xff, 0xff, 0xff, 0xff, 0, 0, 0, 0, 1, 0, 0, 0, 0x95, 0, 0, 0, 0, 0, 0, 0,
];

#[test]
fn code_is_read_back(rt: HostRuntime) -> Result<(), Fail> {
    let code = load(rt.alloc(), &WIDE, &HelperSet::none())?;
    assert_eq!(rt; code.slots(), 3);
    assert_eq!(rt; code.slot(2), [0x95, 0, 0, 0, 0, 0, 0, 0]);
    let insn = Insn {
        opcode: 0x18,
        dst: 0,
        src: 0,
        offset: 0,
        imm: 0x1_ffff_ffff,
    };
    assert_eq!(rt; code.at(0), insn);
    Ok(())
}

// Code that may call helper 10, and its fault, at slot 0.
const CODES: [(&[u8], Option<LoadKind>); 12] = [
    (
        &[0xb7, 0, 0, 0, 7, 0, 0, 0, 0x95, 0, 0, 0, 0, 0, 0, 0],
        None,
    ),
    (
        &[0x85, 0, 0, 0, 10, 0, 0, 0, 0x95, 0, 0, 0, 0, 0, 0, 0],
        None,
    ),
    (&[], Some(LoadKind::Length)),
    (&[0xb7, 0, 0, 0, 7, 0, 0], Some(LoadKind::Length)),
    (&[0xb7, 0, 0, 0, 7, 0, 0, 0], Some(LoadKind::OpenEnd)),
    (
        &[0x8c, 0, 0, 0, 0, 0, 0, 0, 0x95, 0, 0, 0, 0, 0, 0, 0],
        Some(LoadKind::Opcode),
    ),
    (
        &[0xb7, 0x0b, 0, 0, 7, 0, 0, 0, 0x95, 0, 0, 0, 0, 0, 0, 0],
        Some(LoadKind::Register),
    ),
    (
        &[0xb7, 0x10, 0, 0, 7, 0, 0, 0, 0x95, 0, 0, 0, 0, 0, 0, 0],
        Some(LoadKind::Reserved),
    ),
    (
        &[0x18, 0, 0, 0, 7, 0, 0, 0, 0x95, 0, 0, 0, 0, 0, 0, 0],
        Some(LoadKind::WidePair),
    ),
    (
        &[0x05, 0, 5, 0, 0, 0, 0, 0, 0x95, 0, 0, 0, 0, 0, 0, 0],
        Some(LoadKind::Jump),
    ),
    (
        &[0xb7, 0x0a, 0, 0, 0, 0, 0, 0, 0x95, 0, 0, 0, 0, 0, 0, 0],
        Some(LoadKind::WriteR10),
    ),
    (
        &[0x85, 0, 0, 0, 1, 0, 0, 0, 0x95, 0, 0, 0, 0, 0, 0, 0],
        Some(LoadKind::Helper(1)),
    ),
];

fn fault(alloc: Global, code: &[u8]) -> Result<Option<LoadKind>, Fail> {
    match load(alloc, code, &HelperSet::none().with(10)) {
        Ok(_) => Ok(None),
        Err(LoadError::Bad(LoadFault { kind, slot: 0 })) => Ok(Some(kind)),
        Err(LoadError::Bad(_)) => Err("another slot".into()),
        Err(LoadError::OutOfMemory) => Err("no memory".into()),
    }
}

#[test]
fn faults_have_their_kinds(rt: HostRuntime) -> Result<(), Fail> {
    for (code, kind) in &CODES {
        assert_eq!(rt; fault(rt.alloc(), code)?, *kind, "in {code:?}");
    }
    let long = vec![in rt.alloc(); 0x95; 8 * 4097]?;
    assert_eq!(rt; fault(rt.alloc(), &long)?, Some(LoadKind::TooLong));
    Ok(())
}
