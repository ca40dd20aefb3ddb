use super::{done, expect, refused};
use bpf_insn::{LoadFault, LoadKind};
use std::test::Fail;
use xbgp_top::Status;

// r0 = 7
const SEVEN: [u8; 16] = [0xb7, 0, 0, 0, 7, 0, 0, 0, 0x95, 0, 0, 0, 0, 0, 0, 0];

// a jump to itself
const SPIN: [u8; 16] = [0x05, 0, 255, 255, 0, 0, 0, 0, 0x95, 0, 0, 0, 0, 0, 0, 0];

// r0 = *(u64 *)r0, at address 0
const LOAD_AT_0: [u8; 16] = [0x79, 0, 0, 0, 0, 0, 0, 0, 0x95, 0, 0, 0, 0, 0, 0, 0];

// r10 = 0
const WRITE_R10: [u8; 16] = [0xb7, 10, 0, 0, 0, 0, 0, 0, 0x95, 0, 0, 0, 0, 0, 0, 0];

// r0 = -1; w0 %= 0
const REMAINDER: [u8; 24] = [
    0xb7, 0, 0, 0, 255, 255, 255, 255, 0x94, 0, 0, 0, 0, 0, 0, 0, 0x95, 0, 0, 0, 0, 0, 0, 0,
];

// r0 = 0x1ffffffff, in two slots
const WIDE: [u8; 24] = [
    0x18, 0, 0, 0, 255, 255, 255, 255, 0, 0, 0, 0, 1, 0, 0, 0, 0x95, 0, 0, 0, 0, 0, 0, 0,
];

// r0 = -8; r0 >>= 1
const SHIFT: [u8; 24] = [
    0xb7, 0, 0, 0, 0xf8, 255, 255, 255, 0x77, 0, 0, 0, 1, 0, 0, 0, 0x95, 0, 0, 0, 0, 0, 0, 0,
];

const RUNS: [(&[u8], &str); 6] = [
    (&SEVEN, "r0 7\nend\n"),
    (&SPIN, "fault fuel\nend\n"),
    (&LOAD_AT_0, "fault memory\nend\n"),
    (&REMAINDER, "r0 4294967295\nend\n"),
    (&WIDE, "r0 8589934591\nend\n"),
    (&SHIFT, "r0 9223372036854775804\nend\n"),
];

#[test]
fn bytecode_runs_alone(rt: HostRuntime) -> Result<(), Fail> {
    for (code, text) in &RUNS {
        expect(&rt, code, b"", &[done(&["exec", "x"], text)])?;
    }
    Ok(())
}

const REFUSED: [(&[u8], LoadKind, &str); 3] = [
    (
        &[0xb7, 0, 0, 0, 7, 0, 0, 0],
        LoadKind::OpenEnd,
        "fault code openend 0\n",
    ),
    (&[], LoadKind::Length, "fault code length 0\n"),
    (&WRITE_R10, LoadKind::WriteR10, "fault code writer10 0\n"),
];

#[test]
fn bytecode_is_refused(rt: HostRuntime) -> Result<(), Fail> {
    for (code, kind, text) in &REFUSED {
        let (kind, slot) = (*kind, 0);
        let status = Status::BadCode(LoadFault { kind, slot });
        expect(&rt, code, b"", &[refused(&["exec", "x"], status, text)])?;
    }
    Ok(())
}
