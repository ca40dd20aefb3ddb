use super::{answer, expect, refused, shelf_of, update, zeros};
use bpf_insn::{LoadFault, LoadKind};
use std::test::Fail;
use xb_domain::{BadKind, Part};
use xbgp_config::ConfigFault;
use xbgp_manifest::ManifestFault;
use xbgp_top::{File, Status};

const USAGE: &str = "fault usage\n";

const NO_COMMANDS: [&[&str]; 5] = [
    &[],
    &["heard"],
    &["hear", "x"],
    &["check", "x"],
    &["judge", "x", "x"],
];

#[test]
fn words_that_are_no_command_are_refused(rt: HostRuntime) -> Result<(), Fail> {
    for words in &NO_COMMANDS {
        let case = refused(words, Status::Usage, USAGE);
        expect(&rt, b"", b"", &[case])?;
    }
    Ok(())
}

#[test]
fn inputs_are_refused(rt: HostRuntime) -> Result<(), Fail> {
    let mut short = update(rt.alloc(), &[8, 10])?;
    let _ = short.pop();
    let stream = refused(&["heard", "x"], Status::BadStream(0), "fault stream 0\n");
    let absent = refused(&["heard", "y"], Status::ReadFault, "");
    let no_config = refused(&["check", "y", "-"], Status::ReadFault, "");
    expect(&rt, &short, b"", &[stream, absent, no_config])
}

#[test]
fn long_inputs_are_refused(rt: HostRuntime) -> Result<(), Fail> {
    let long = zeros(rt.alloc(), 1_048_577)?;
    let input = Status::TooLong(File::Input);
    let config = Status::TooLong(File::Config);
    let long_input = refused(&["heard", "x"], input, "fault long input\n");
    let long_config = refused(&["check", "x", "-"], config, "fault long config\n");
    expect(&rt, &long, b"", &[long_input, long_config])
}

#[test]
fn a_sink_that_fails_is_told(rt: HostRuntime) -> Result<(), Fail> {
    let alloc = rt.alloc();
    let mut shelf = shelf_of(alloc, &update(alloc, &[8, 10])?, b"")?;
    let (status, written) = answer(alloc, &["heard", "x"], &mut shelf, 1)?;
    assert_eq!(rt; status, Status::WriteFault);
    assert!(rt; written.is_empty());
    Ok(())
}

const STATUSES: [(Status, u8); 10] = [
    (Status::Done, 0),
    (Status::Usage, 2),
    (Status::ReadFault, 3),
    (Status::WriteFault, 4),
    (
        Status::BadConfig(ConfigFault {
            kind: BadKind::Missing,
            part: Part::Top,
            index: 0,
        }),
        5,
    ),
    (
        Status::BadManifest(ManifestFault {
            kind: BadKind::Missing,
            part: Part::Top,
            index: 0,
            slot: 0,
        }),
        6,
    ),
    (Status::OutOfMemory, 8),
    (Status::TooLong(File::Input), 9),
    (Status::BadStream(0), 10),
    (
        Status::BadCode(LoadFault {
            kind: LoadKind::Length,
            slot: 0,
        }),
        11,
    ),
];

#[test]
fn statuses_have_their_numbers(rt: HostRuntime) {
    for (status, code) in &STATUSES {
        assert_eq!(rt; status.code(), *code);
    }
}
