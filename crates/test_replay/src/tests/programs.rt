//! Worked extensions: a manifest, and the report of a route of peer 1 of which peer 2 is told.
use super::rows::{APPENDED, APPENDS, C, LOG, REPORT, Row};

/// A manifest and the report of `LOG` with it, after the first two sessions came up.
#[derive(Clone, Copy)]
pub(crate) struct Extension {
    pub(crate) what: &'static str,
    pub(crate) manifest: &'static str,
    pub(crate) report: &'static str,
    /// The lines of maps and faults, which follow.
    pub(crate) noted: &'static str,
}

impl Extension {
    /// What is replayed.
    pub(crate) fn row(&self) -> Row {
        Row {
            what: self.what,
            config: C,
            manifest: self.manifest,
            up: 2,
            log: LOG,
            report: self.report,
        }
    }
}

// The report if the best route has LOCAL_PREF 200.
const PREFERRED: &str = "\
sent 2 ffffffffffffffffffffffffffffffff002d0200000014400101004002060202fde8fde9400304c00002fe080a
route 10.0.0.0/8 1 4001010040020602010000fde9400304c0000201400504000000c8
adv 2 10.0.0.0/8 400101004002060202fde8fde9400304c00002fe
drained 1
drained 2
";

pub(crate) static EXTENSIONS: [Extension; 17] = [
    Extension {
        what: "LOCAL_PREF is set",
        manifest: "version = 1
[[program]]
name = 'first'
point = 'inbound'
fuel = 100
code = '620afcff000000c8b701000005000000b702000040000000bfa300000000000007030000fcffffff\
            b704000004000000850000000300000085000000010000009500000000000000'
",
        report: PREFERRED,
        noted: "",
    },
    Extension {
        what: "edits of the programs before a fault are undone",
        manifest: "version = 1
[[program]]
name = 'first'
point = 'inbound'
fuel = 100
code = '620afcff000000c8b701000005000000b702000040000000bfa300000000000007030000fcffffff\
            b704000004000000850000000300000085000000010000009500000000000000'
[[program]]
name = 'second'
point = 'inbound'
fuel = 100
code = '7a0a0000000000009500000000000000'
",
        report: REPORT,
        noted: "fault second inbound memory\n",
    },
    Extension {
        what: "an attribute is appended",
        manifest: APPENDS,
        report: APPENDED,
        noted: "",
    },
    Extension {
        what: "a section that is not clean",
        manifest: "version = 1
[[program]]
name = 'mark'
point = 'encode'
fuel = 100
code = '620afcff40c80107bfa100000000000007010000fcffffffb702000004000000850000000c000000\
            b7000000020000009500000000000000'
",
        report: REPORT,
        noted: "fault mark encode output\n",
    },
    Extension {
        what: "a result that is not listed",
        manifest: "version = 1
[[program]]
name = 'odd'
point = 'inbound'
fuel = 100
code = 'b7000000090000009500000000000000'
",
        report: REPORT,
        noted: "fault odd inbound return\n",
    },
    Extension {
        what: "a second route at inbound",
        manifest: "version = 1
[[program]]
name = 'odd'
point = 'inbound'
fuel = 100
code = 'b70100000100000085000000020000009500000000000000'
",
        report: REPORT,
        noted: "fault odd inbound misuse\n",
    },
    Extension {
        what: "a message is dropped by its last octet",
        manifest: "version = 1
[[program]]
name = 'tail'
point = 'receive'
fuel = 100
code = '0f210000000000007110ffff00000000150002000a000000b7000000010000009500000000000000\
            b7000000020000009500000000000000'
",
        report: "drained 1
drained 2
",
        noted: "",
    },
    Extension {
        what: "the window is read-only",
        manifest: "version = 1
[[program]]
name = 'poke'
point = 'receive'
fuel = 100
code = '72010000000000009500000000000000'
",
        report: REPORT,
        noted: "fault poke receive memory\n",
    },
    Extension {
        what: "a map keeps a prefix",
        manifest: "version = 1
[[map]]
name = 'seen'
key = 5
value = 1
entries = 1
[[program]]
name = 'note'
point = 'inbound'
fuel = 100
code = 'bfa100000000000007010000f8ffffff8500000008000000720affff07000000bfa2000000000000\
            07020000f8ffffffbfa300000000000007030000ffffffff850000000a0000008500000001000000\
            9500000000000000'
",
        report: REPORT,
        noted: "map seen 0a00000008 07\n",
    },
    Extension {
        what: "map writes before a fault are undone",
        manifest: "version = 1
[[map]]
name = 'seen'
key = 5
value = 1
entries = 1
[[program]]
name = 'note'
point = 'inbound'
fuel = 100
code = 'bfa100000000000007010000f8ffffff8500000008000000720affff07000000bfa2000000000000\
            07020000f8ffffffbfa300000000000007030000ffffffff850000000a0000008500000001000000\
            9500000000000000'
[[program]]
name = 'second'
point = 'inbound'
fuel = 100
code = '7a0a0000000000009500000000000000'
",
        report: REPORT,
        noted: "fault second inbound memory\n",
    },
    Extension {
        what: "nothing is told",
        manifest: "version = 1
[[program]]
name = 'deny'
point = 'outbound'
fuel = 100
code = 'b7000000020000009500000000000000'
",
        report: "route 10.0.0.0/8 1 4001010040020602010000fde9400304c0000201
drained 1
drained 2
",
        noted: "",
    },
    Extension {
        what: "a loop without an end",
        manifest: "version = 1
[[program]]
name = 'spin'
point = 'inbound'
fuel = 50
code = '0500ffff000000009500000000000000'
",
        report: REPORT,
        noted: "fault spin inbound fuel\n",
    },
    Extension {
        what: "a load that passes the heap",
        manifest: "version = 1
[[program]]
name = 'edge'
point = 'inbound'
fuel = 100
code = 'b7010000fc1f002079100000000000009500000000000000'
",
        report: REPORT,
        noted: "fault edge inbound memory\n",
    },
    Extension {
        what: "a field that is not there",
        manifest: "version = 1
[[program]]
name = 'field'
point = 'inbound'
fuel = 100
code = 'b70100000800000085000000060000009500000000000000'
",
        report: REPORT,
        noted: "fault field inbound misuse\n",
    },
    Extension {
        what: "more than the heap",
        manifest: "version = 1
[[program]]
name = 'big'
point = 'inbound'
fuel = 100
code = 'b701000001200000850000000d0000009500000000000000'
",
        report: REPORT,
        noted: "fault big inbound return\n",
    },
    Extension {
        what: "an empty section",
        manifest: "version = 1
[[program]]
name = 'blank'
point = 'encode'
fuel = 100
code = 'b7000000010000009500000000000000'
",
        report: REPORT,
        noted: "fault blank encode output\n",
    },
    Extension {
        what: "a fault after another point edited",
        manifest: "version = 1
[[program]]
name = 'first'
point = 'inbound'
fuel = 100
code = '620afcff000000c8b701000005000000b702000040000000bfa300000000000007030000fcffffff\
            b704000004000000850000000300000085000000010000009500000000000000'
[[program]]
name = 'spin'
point = 'outbound'
fuel = 50
code = '0500ffff000000009500000000000000'
",
        report: PREFERRED,
        noted: "fault spin outbound fuel\n",
    },
];
