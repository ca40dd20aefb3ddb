use super::{done, expect, refused, zeros};
use std::alloc::Global;
use std::test::Fail;
use xb_domain::{BadKind, Part};
use xbgp_config::ConfigFault;
use xbgp_manifest::ManifestFault;
use xbgp_top::{File, Status};

const CONFIG: &str = "[speaker]
as = 65000
id = \"192.0.2.254\"
address = \"192.0.2.254\"
[[peer]]
as = 65001
address = \"192.0.2.1\"
[[peer]]
as = 65002
address = \"192.0.2.2\"
[[peer]]
as = 65003
address = \"192.0.2.3\"
";

const MANIFEST: &str = "version = 1
[[map]]
name = \"seen\"
key = 4
value = 8
entries = 100
[[program]]
name = \"first\"
point = \"inbound\"
fuel = 100
code = \"85000000010000009500000000000000\"
";

const CHECK: &[&str] = &["check", "x", "m"];

const CHECK_ALONE: &[&str] = &["check", "x", "-"];

#[test]
fn texts_are_counted(rt: HostRuntime) -> Result<(), Fail> {
    let alone = done(
        CHECK_ALONE,
        "peers 3\nnetworks 0\nmaps 0\nprograms 0\nend\n",
    );
    let both = done(CHECK, "peers 3\nnetworks 0\nmaps 1\nprograms 1\nend\n");
    expect(&rt, CONFIG.as_bytes(), MANIFEST.as_bytes(), &[alone, both])
}

// A configuration with `count` peers.
fn config_of_peers(alloc: Global, count: u32) -> Result<String, Fail> {
    let mut text = String::from_str(
        alloc,
        "[speaker]\nas = 1\nid = \"1.1.1.1\"\naddress = \"1.1.1.1\"\n",
    )?;
    for i in 0..count {
        write!(text, "[[peer]]\nas = 2\naddress = \"10.0.0.{i}\"\n")?;
    }
    Ok(text)
}

// A part of CONFIG, what replaces it, and the fault of the result, with its line.
const CONFIGS: [(&str, &str, ConfigFault, &str); 4] = [
    (
        CONFIG,
        "",
        ConfigFault {
            kind: BadKind::Missing,
            part: Part::Top,
            index: 0,
        },
        "fault config missing top 0\n",
    ),
    (
        "192.0.2.2\"",
        "192.0.2.1\"",
        ConfigFault {
            kind: BadKind::Double,
            part: Part::Peer,
            index: 2,
        },
        "fault config double peer 2\n",
    ),
    (
        "65000\n",
        "65000\nhold = 2\n",
        ConfigFault {
            kind: BadKind::Range,
            part: Part::Speaker,
            index: 0,
        },
        "fault config range speaker 0\n",
    ),
    (
        "[speaker]",
        "mtu = 1500\n[speaker]",
        ConfigFault {
            kind: BadKind::Key,
            part: Part::Top,
            index: 0,
        },
        "fault config key top 0\n",
    ),
];

#[test]
fn configurations_are_refused(rt: HostRuntime) -> Result<(), Fail> {
    for (old, new, fault, line) in &CONFIGS {
        let config = CONFIG.replace(rt.alloc(), old, new)?;
        let case = refused(CHECK_ALONE, Status::BadConfig(*fault), line);
        expect(&rt, config.as_bytes(), b"", &[case])?;
    }
    Ok(())
}

#[test]
fn too_many_peers_are_refused(rt: HostRuntime) -> Result<(), Fail> {
    let many = config_of_peers(rt.alloc(), 65)?;
    let status = Status::BadConfig(ConfigFault {
        kind: BadKind::Count,
        part: Part::Top,
        index: 0,
    });
    let case = refused(CHECK_ALONE, status, "fault config count top 0\n");
    expect(&rt, many.as_bytes(), b"", &[case])
}

// A part of MANIFEST, what replaces it, and the fault of the result, at slot 0, with its line. Helper 10 is not one of
// the outbound point's.
const MANIFESTS: [(&str, &str, BadKind, Part, u32, &str); 2] = [
    (
        MANIFEST,
        "",
        BadKind::Missing,
        Part::Top,
        0,
        "fault manifest missing top 0 0\n",
    ),
    (
        "inbound\"\nfuel = 100\ncode = \"8500000001",
        "outbound\"\nfuel = 100\ncode = \"850000000a",
        BadKind::Helper,
        Part::Program,
        1,
        "fault manifest helper program 1 0\n",
    ),
];

// The status of a fault at slot 0.
fn bad_manifest(kind: BadKind, part: Part, index: u32) -> Status {
    Status::BadManifest(ManifestFault {
        kind,
        part,
        index,
        slot: 0,
    })
}

#[test]
fn manifests_are_refused(rt: HostRuntime) -> Result<(), Fail> {
    for (old, new, kind, part, index, line) in &MANIFESTS {
        let manifest = MANIFEST.replace(rt.alloc(), old, new)?;
        let case = refused(CHECK, bad_manifest(*kind, *part, *index), line);
        expect(&rt, CONFIG.as_bytes(), manifest.as_bytes(), &[case])?;
    }
    Ok(())
}

// A manifest of `maps` maps with the widest keys and values, and one outbound program.
fn manifest_of(alloc: Global, maps: u32) -> Result<String, Fail> {
    let mut text = String::from_str(
        alloc,
        "version = 1\nprogram = [{name = \"p\", point = \"outbound\", fuel = 100, code = \"85000000010000009500000000000000\"}]\n",
    )?;
    for i in 0..maps {
        write!(
            text,
            "[[map]]\nname = \"m{i}\"\nkey = 64\nvalue = 256\nentries = 65536\n"
        )?;
    }
    Ok(text)
}

#[test]
fn the_widest_map_is_accepted(rt: HostRuntime) -> Result<(), Fail> {
    let one = manifest_of(rt.alloc(), 1)?;
    let counted = done(CHECK, "peers 3\nnetworks 0\nmaps 1\nprograms 1\nend\n");
    expect(&rt, CONFIG.as_bytes(), one.as_bytes(), &[counted])
}

// Four of the widest maps take too much together; a repeated name comes first.
#[test]
fn wide_maps_are_refused(rt: HostRuntime) -> Result<(), Fail> {
    for (name, kind, part, index, line) in [
        (
            "\"m1\"",
            BadKind::Room,
            Part::Top,
            0,
            "fault manifest room top 0 0\n",
        ),
        (
            "\"m0\"",
            BadKind::Double,
            Part::Map,
            2,
            "fault manifest double map 2 0\n",
        ),
    ] {
        let manifest = manifest_of(rt.alloc(), 4)?.replace(rt.alloc(), "\"m1\"", name)?;
        let case = refused(CHECK, bad_manifest(kind, part, index), line);
        expect(&rt, CONFIG.as_bytes(), manifest.as_bytes(), &[case])?;
    }
    Ok(())
}

// The manifest is read after the configuration is judged.
#[test]
fn the_configuration_comes_first(rt: HostRuntime) -> Result<(), Fail> {
    let kind = BadKind::Missing;
    let part = Part::Top;
    let index = 0;
    let bad = Status::BadConfig(ConfigFault { kind, part, index });
    let neither = refused(&["check", "x", "y"], bad, "fault config missing top 0\n");
    expect(&rt, b"", b"", &[neither])?;
    let absent = refused(&["check", "x", "y"], Status::ReadFault, "");
    let too_long = Status::TooLong(File::Manifest);
    let long = refused(CHECK, too_long, "fault long manifest\n");
    let manifest = zeros(rt.alloc(), 1_048_577)?;
    expect(&rt, CONFIG.as_bytes(), &manifest, &[absent, long])
}
