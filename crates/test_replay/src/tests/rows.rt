//! Worked replays: a configuration, a manifest and a log, and the report that they give.

/// A replay that ends with Done, and its report. Sessions come up first, those of peer 1 and the peers after it.
#[derive(Clone, Copy)]
pub(crate) struct Row {
    pub(crate) what: &'static str,
    pub(crate) config: &'static str,
    /// Empty if there is none.
    pub(crate) manifest: &'static str,
    /// How many sessions come up first.
    pub(crate) up: usize,
    /// The lines of the log after that.
    pub(crate) log: &'static str,
    /// The lines of the report after that, without the last.
    pub(crate) report: &'static str,
}

/// AS 65000 with three external peers.
pub(crate) const C: &str = r#"[speaker]
as = 65000
id = "192.0.2.254"
address = "192.0.2.254"
[[peer]]
as = 65001
address = "192.0.2.1"
[[peer]]
as = 65002
address = "192.0.2.2"
[[peer]]
as = 65003
address = "192.0.2.3"
"#;

/// The same with a network of its own.
const C_NETWORK: &str = r#"[speaker]
as = 65000
id = "192.0.2.254"
address = "192.0.2.254"
networks = ["198.51.100.0/24"]
[[peer]]
as = 65001
address = "192.0.2.1"
[[peer]]
as = 65002
address = "192.0.2.2"
[[peer]]
as = 65003
address = "192.0.2.3"
"#;

/// The same, the first peer with an AS number of four octets.
const C_WIDE: &str = r#"[speaker]
as = 65000
id = "192.0.2.254"
address = "192.0.2.254"
[[peer]]
as = 200000
address = "192.0.2.1"
[[peer]]
as = 65002
address = "192.0.2.2"
[[peer]]
as = 65003
address = "192.0.2.3"
"#;

/// The lines by which the session of each peer comes up, with AS numbers of two octets.
pub(crate) static UP: [&str; 3] = [
    "start 1
up 1
in 1 ffffffffffffffffffffffffffffffff001d0104fde9005ac000020100
in 1 ffffffffffffffffffffffffffffffff001304
",
    "start 2
up 2
in 2 ffffffffffffffffffffffffffffffff001d0104fdea005ac000020200
in 2 ffffffffffffffffffffffffffffffff001304
",
    "start 3
up 3
in 3 ffffffffffffffffffffffffffffffff001d0104fdeb005ac000020300
in 3 ffffffffffffffffffffffffffffffff001304
",
];

/// What is reported then.
pub(crate) static REPORTED_UP: [&str; 3] = [
    "sent 1 ffffffffffffffffffffffffffffffff00250104fde8005ac00002fe08020641040000fde8
sent 1 ffffffffffffffffffffffffffffffff001304
up 1
",
    "sent 2 ffffffffffffffffffffffffffffffff00250104fde8005ac00002fe08020641040000fde8
sent 2 ffffffffffffffffffffffffffffffff001304
up 2
",
    "sent 3 ffffffffffffffffffffffffffffffff00250104fde8005ac00002fe08020641040000fde8
sent 3 ffffffffffffffffffffffffffffffff001304
up 3
",
];

/// A route of peer 1, of which peer 2 is told.
pub(crate) const LOG: &str = "\
in 1 ffffffffffffffffffffffffffffffff002b0200000012400101004002040201fde9400304c0000201080a
drain 2
drain 1
";

/// What is reported then.
pub(crate) const REPORT: &str = "\
sent 2 ffffffffffffffffffffffffffffffff002d0200000014400101004002060202fde8fde9400304c00002fe080a
route 10.0.0.0/8 1 4001010040020602010000fde9400304c0000201
adv 2 10.0.0.0/8 400101004002060202fde8fde9400304c00002fe
drained 1
drained 2
";

/// An attribute is appended to what peers are told.
pub(crate) const APPENDS: &str = "\
version = 1
[[program]]
name = 'mark'
point = 'encode'
fuel = 100
code = '620afcffc0c80107bfa100000000000007010000fcffffffb702000004000000850000000c000000\
            b7000000020000009500000000000000'
";

/// The report of the same log with that.
pub(crate) const APPENDED: &str = "\
sent 2 ffffffffffffffffffffffffffffffff00310200000018400101004002060202fde8fde9400304c00002fec0c80107080a
route 10.0.0.0/8 1 4001010040020602010000fde9400304c0000201
adv 2 10.0.0.0/8 400101004002060202fde8fde9400304c00002fec0c80107
drained 1
drained 2
";

/// A route is told.
pub(crate) const TOLD: Row = Row {
    what: "a route is told",
    config: C,
    manifest: "",
    up: 2,
    log: LOG,
    report: REPORT,
};

pub(crate) static ROWS: [Row; 13] = [
    Row {
        what: "a length of 4,097 octets",
        config: C,
        manifest: "",
        up: 1,
        log: "in 1 ffffffffffffffffffffffffffffffff100102
",
        report: "sent 1 ffffffffffffffffffffffffffffffff00170301021001
down 1
",
    },
    Row {
        what: "an OPEN with a capability",
        config: C,
        manifest: "",
        up: 0,
        log: "start 1
up 1
in 1 ffffffffffffffffffffffffffffffff00250104fde9005ac0000201080206010400010001
in 1 ffffffffffffffffffffffffffffffff001304
",
        report: "sent 1 ffffffffffffffffffffffffffffffff00250104fde8005ac00002fe08020641040000fde8
sent 1 ffffffffffffffffffffffffffffffff001304
up 1
drained 1
",
    },
    Row {
        what: "an OPEN with a parameter that is no capability",
        config: C,
        manifest: "",
        up: 0,
        log: "start 1
up 1
in 1 ffffffffffffffffffffffffffffffff001f0104fde9005ac0000201020100
in 1 ffffffffffffffffffffffffffffffff001304
",
        report: "sent 1 ffffffffffffffffffffffffffffffff00250104fde8005ac00002fe08020641040000fde8
sent 1 ffffffffffffffffffffffffffffffff0015030204
",
    },
    TOLD,
    Row {
        what: "an UPDATE in parts, and a KEEPALIVE between them",
        config: C,
        manifest: "",
        up: 2,
        log: "in 1 ffffffffffffffffffffffffffffffff002b0200000012400101004002040201fde9400304c0000201080a
room 2 1
time 30
",
        report: "sent 2 ff
sent 1 ffffffffffffffffffffffffffffffff001304
sent 2 ffffffffffffffffffffffffffffff002d0200000014400101004002060202fde8fde9400304c00002fe080a
sent 2 ffffffffffffffffffffffffffffffff001304
route 10.0.0.0/8 1 4001010040020602010000fde9400304c0000201
adv 2 10.0.0.0/8 400101004002060202fde8fde9400304c00002fe
drained 1
drained 2
",
    },
    Row {
        what: "MED counts among routes of one neighbour alone",
        config: C,
        manifest: "",
        up: 3,
        log: "in 1 ffffffffffffffffffffffffffffffff00320200000019400101004002040201fde9400304c000020180040400000014080a
in 2 ffffffffffffffffffffffffffffffff002b0200000012400101004002040201fdea400304c0000202080a
in 3 ffffffffffffffffffffffffffffffff00320200000019400101004002040201fde9400304c00002038004040000000a080a
",
        report: "route 10.0.0.0/8 2 4001010040020602010000fdea400304c0000202
adv 1 10.0.0.0/8 400101004002060202fde8fdea400304c00002fe
adv 3 10.0.0.0/8 400101004002060202fde8fdea400304c00002fe
drained 2
",
    },
    Row {
        what: "a decision that goes round in a circle",
        config: C,
        manifest: "version = 1
[[program]]
name = 'p'
point = 'decision'
fuel = 100
code = 'b701000000000000b7020000000000008500000007000000bf06000000000000b701000001000000\
            b70200000000000085000000070000001f60000000000000150003000100000015000200feffffff\
            b7000000020000009500000000000000b7000000010000009500000000000000'
",
        up: 3,
        log: "in 1 ffffffffffffffffffffffffffffffff002b0200000012400101004002040201fde9400304c0000201080a
in 2 ffffffffffffffffffffffffffffffff002b0200000012400101004002040201fdea400304c0000202080a
in 3 ffffffffffffffffffffffffffffffff002b0200000012400101004002040201fdeb400304c0000203080a
",
        report: "route 10.0.0.0/8 3 4001010040020602010000fdeb400304c0000203
adv 1 10.0.0.0/8 400101004002060202fde8fdeb400304c00002fe
adv 2 10.0.0.0/8 400101004002060202fde8fdeb400304c00002fe
drained 3
",
    },
    Row {
        what: "a damaged message closes its own session",
        config: C,
        manifest: "",
        up: 2,
        log: "in 1 ffffffffffffffffffffffffffffffff002b0200000012400101004002040201fde9400304c0000201080a
drain 2
in 1 00000000000000000000000000000000000000
drain 2
",
        report: "sent 2 ffffffffffffffffffffffffffffffff002d0200000014400101004002060202fde8fde9400304c00002fe080a
sent 1 ffffffffffffffffffffffffffffffff0015030101
down 1
sent 2 ffffffffffffffffffffffffffffffff0019020002080a0000
drained 2
",
    },
    Row {
        what: "a network of the speaker",
        config: C_NETWORK,
        manifest: "",
        up: 1,
        log: "drain 1
",
        report: "sent 1 ffffffffffffffffffffffffffffffff002d0200000012400101004002040201fde8400304c00002fe18c63364
route 198.51.100.0/24 0 40010100400200400304c00002fe
adv 1 198.51.100.0/24 400101004002040201fde8400304c00002fe
drained 1
",
    },
    Row {
        what: "a peer with AS numbers of four octets",
        config: C,
        manifest: "",
        up: 0,
        log: "start 1
up 1
in 1 ffffffffffffffffffffffffffffffff001d0104fde9005ac000020100
in 1 ffffffffffffffffffffffffffffffff001304
start 2
up 2
in 2 ffffffffffffffffffffffffffffffff00250104fdea005ac000020208020641040000fdea
in 2 ffffffffffffffffffffffffffffffff001304
in 1 ffffffffffffffffffffffffffffffff002b0200000012400101004002040201fde9400304c0000201080a
drain 2
drain 1
",
        report: "sent 1 ffffffffffffffffffffffffffffffff00250104fde8005ac00002fe08020641040000fde8
sent 1 ffffffffffffffffffffffffffffffff001304
up 1
sent 2 ffffffffffffffffffffffffffffffff00250104fde8005ac00002fe08020641040000fde8
sent 2 ffffffffffffffffffffffffffffffff001304
up 2
sent 2 ffffffffffffffffffffffffffffffff003102000000184001010040020a02020000fde80000fde9400304c00002fe080a
route 10.0.0.0/8 1 4001010040020602010000fde9400304c0000201
adv 2 10.0.0.0/8 4001010040020a02020000fde80000fde9400304c00002fe
drained 1
drained 2
",
    },
    Row {
        what: "an AS number of four octets for a peer of two",
        config: C_WIDE,
        manifest: "",
        up: 0,
        log: "start 1
up 1
in 1 ffffffffffffffffffffffffffffffff002501045ba0005ac0000201080206410400030d40
in 1 ffffffffffffffffffffffffffffffff001304
start 2
up 2
in 2 ffffffffffffffffffffffffffffffff001d0104fdea005ac000020200
in 2 ffffffffffffffffffffffffffffffff001304
in 1 ffffffffffffffffffffffffffffffff002d020000001440010100400206020100030d40400304c0000201080a
drain 2
drain 1
",
        report: "sent 1 ffffffffffffffffffffffffffffffff00250104fde8005ac00002fe08020641040000fde8
sent 1 ffffffffffffffffffffffffffffffff001304
up 1
sent 2 ffffffffffffffffffffffffffffffff00250104fde8005ac00002fe08020641040000fde8
sent 2 ffffffffffffffffffffffffffffffff001304
up 2
sent 2 ffffffffffffffffffffffffffffffff003a0200000021\
            400101004002060202fde85ba0400304c00002fec0110a02020000fde800030d40080a
route 10.0.0.0/8 1 40010100400206020100030d40400304c0000201
adv 2 10.0.0.0/8 400101004002060202fde85ba0400304c00002fec0110a02020000fde800030d40
drained 1
drained 2
",
    },
    Row {
        what: "everything is exported again",
        config: C,
        manifest: "",
        up: 2,
        log: "in 1 ffffffffffffffffffffffffffffffff002b0200000012400101004002040201fde9400304c0000201080a
rescan
drain 2
drain 1
",
        report: REPORT,
    },
    Row {
        what: "everything is exported again after it was told",
        config: C,
        manifest: APPENDS,
        up: 2,
        log: "in 1 ffffffffffffffffffffffffffffffff002b0200000012400101004002040201fde9400304c0000201080a
drain 2
drain 1
rescan
drain 2
",
        report: APPENDED,
    },
];

/// Prefixes of two sections, of which peer 2 is told. What is sent to it comes first in the report.
pub(crate) const SECTIONS: Row = Row {
    what: "prefixes of two sections",
    config: C,
    manifest: "",
    up: 2,
    log: "in 1 ffffffffffffffffffffffffffffffff002d0200000012400101004002040201fde9400304c0000201080a080c
in 1 ffffffffffffffffffffffffffffffff002b0200000012400101014002040201fde9400304c0000201080b
drain 2
",
    report: "route 10.0.0.0/8 1 4001010040020602010000fde9400304c0000201
route 11.0.0.0/8 1 4001010140020602010000fde9400304c0000201
route 12.0.0.0/8 1 4001010040020602010000fde9400304c0000201
adv 2 10.0.0.0/8 400101004002060202fde8fde9400304c00002fe
adv 2 11.0.0.0/8 400101014002060202fde8fde9400304c00002fe
adv 2 12.0.0.0/8 400101004002060202fde8fde9400304c00002fe
drained 1
drained 2
",
};

/// What each host sends then.
pub(crate) const PACKED: [(&str, &str); 2] = [
    (
        "interned",
        "sent 2 ffffffffffffffffffffffffffffffff002f0200000014400101004002060202fde8fde9400304c00002fe080a080c
sent 2 ffffffffffffffffffffffffffffffff002d0200000014400101014002060202fde8fde9400304c00002fe080b
",
    ),
    (
        "listed",
        "sent 2 ffffffffffffffffffffffffffffffff002d0200000014400101004002060202fde8fde9400304c00002fe080a
sent 2 ffffffffffffffffffffffffffffffff002d0200000014400101014002060202fde8fde9400304c00002fe080b
sent 2 ffffffffffffffffffffffffffffffff002d0200000014400101004002060202fde8fde9400304c00002fe080c
",
    ),
];
