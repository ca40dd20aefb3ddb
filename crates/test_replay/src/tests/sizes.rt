//! Routes at the limit of what is advertised: 4,068 octets of attributes.
use super::rows::{C, REPORTED_UP, UP};
use super::{END, joined, on_both, repeated, replay};
use std::alloc::{AllocError, Global};
use std::test::Fail;
use xbgp_top::Status;

// An unrecognized attribute with a value of zeros, after the mandatory ones. Each text is what comes before the zeros,
// or empty if there is no such line.
#[derive(Clone, Copy)]
struct Long {
    zeros: usize,
    received: &'static str,
    sent: &'static str,
    route: &'static str,
    advertised: &'static str,
}

// The first is the longest that is advertised.
static LONG: [Long; 2] = [
    Long {
        zeros: 4044,
        received: "in 1 ffffffffffffffffffffffffffffffff0ffb0200000fe2\
            400101004002040201fde9400304c0000201d0c80fcc",
        sent: "sent 2 ffffffffffffffffffffffffffffffff0ffd0200000fe4\
            400101004002060202fde8fde9400304c00002fef0c80fcc",
        route: "route 10.0.0.0/8 1 4001010040020602010000fde9400304c0000201d0c80fcc",
        advertised: "adv 2 10.0.0.0/8 400101004002060202fde8fde9400304c00002fef0c80fcc",
    },
    Long {
        zeros: 4045,
        received: "in 1 ffffffffffffffffffffffffffffffff0ffc0200000fe3\
            400101004002040201fde9400304c0000201d0c80fcd",
        sent: "",
        route: "route 10.0.0.0/8 1 4001010040020602010000fde9400304c0000201d0c80fcd",
        advertised: "",
    },
];

// Appends a text and, unless it is empty, the zeros, an end and a new line.
fn push_long(text: &mut String, front: &str, zeros: &str, end: &str) -> Result<(), AllocError> {
    if front.is_empty() {
        return Ok(());
    }
    text.push_str(front)?;
    text.push_str(zeros)?;
    text.push_str(end)?;
    text.push('\n')
}

fn log_of(alloc: Global, long: &Long, zeros: &str) -> Result<String, AllocError> {
    let mut log = joined(alloc, &UP, 2, "", "")?;
    push_long(&mut log, long.received, zeros, "080a")?;
    log.push_str("drain 2\ndrain 1\n")?;
    Ok(log)
}

fn report_of(alloc: Global, long: &Long, zeros: &str) -> Result<String, AllocError> {
    let mut report = joined(alloc, &REPORTED_UP, 2, "", "")?;
    push_long(&mut report, long.sent, zeros, "080a")?;
    push_long(&mut report, long.route, zeros, "")?;
    push_long(&mut report, long.advertised, zeros, "")?;
    report.push_str("drained 1\ndrained 2\n")?;
    report.push_str(END)?;
    Ok(report)
}

#[test]
fn a_section_over_its_limit_is_not_advertised(rt: HostRuntime) -> Result<(), Fail> {
    for long in &LONG {
        let zeros = repeated(rt.alloc(), "00", long.zeros)?;
        let log = log_of(rt.alloc(), long, &zeros)?;
        let report = report_of(rt.alloc(), long, &zeros)?;
        let wanted = on_both(rt.alloc(), &report)?;
        let (status, written) = replay(rt.alloc(), "both", C, "", &log)?;
        assert_eq!(rt; status, Status::Done);
        assert!(rt;
            written.as_slice() == wanted.as_bytes(),
            "with {} zeros",
            long.zeros
        );
    }
    Ok(())
}
