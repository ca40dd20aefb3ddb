mod programs;
mod rows;
mod shapes;
mod sizes;

use programs::EXTENSIONS;
use rows::{C, PACKED, REPORTED_UP, ROWS, Row, SECTIONS, UP};
use std::alloc::{AllocError, Global};
use std::process::Abort;
use std::test::Fail;
use xb_io::{MemShelf, MemSink};
use xbgp_top::{Status, run};

// More octets than any report here has.
const SINK_ROOM: usize = 65_536;

// The last line of a whole report.
const END: &str = "end\n";

// `-` means no manifest.
fn words_of(alloc: Global, host: &str, manifest: &str) -> Result<Vec<String>, AllocError> {
    let name = if manifest.is_empty() { "-" } else { "manifest" };
    let mut owned = Vec::new(alloc);
    for word in ["replay", host, "config", name, "log"] {
        owned.push(String::from_str(alloc, word)?)?;
    }
    Ok(owned)
}

// The status that a replay on that host gives, or on both, and what is written.
fn replay(
    alloc: Global,
    host: &str,
    config: &str,
    manifest: &str,
    log: &str,
) -> Result<(Status, Vec<u8>), Fail> {
    let mut shelf = MemShelf::make(alloc)?;
    shelf.add("config", config.as_bytes())?;
    shelf.add("manifest", manifest.as_bytes())?;
    shelf.add("log", log.as_bytes())?;
    let mut sink = MemSink::make(alloc, SINK_ROOM)?;
    let words = words_of(alloc, host, manifest)?;
    let status = run(alloc, &words, &mut shelf, &mut sink);
    Ok((status, Vec::from_slice(alloc, sink.taken())?))
}

// The first of some texts, and then two more.
fn joined(
    alloc: Global,
    texts: &[&str],
    count: usize,
    text: &str,
    last: &str,
) -> Result<String, AllocError> {
    let mut whole = String::new(alloc);
    for front in texts.iter().take(count) {
        whole.push_str(front)?;
    }
    whole.push_str(text)?;
    whole.push_str(last)?;
    Ok(whole)
}

fn repeated(alloc: Global, text: &str, count: usize) -> Result<String, AllocError> {
    let mut whole = String::new(alloc);
    for _ in 0..count {
        whole.push_str(text)?;
    }
    Ok(whole)
}

fn log_of(alloc: Global, row: &Row) -> Result<String, AllocError> {
    joined(alloc, &UP, row.up, row.log, "")
}

// What a replay on both hosts writes if their reports are equal.
fn on_both(alloc: Global, report: &str) -> Result<String, AllocError> {
    let titled = ["host interned\n", report, "host listed\n"];
    joined(alloc, &titled, titled.len(), report, "")
}

// A log gives the report of the row on both hosts. It may have lines of maps and faults besides.
fn expect(rt: &(impl AllocGlobal + Abort), row: &Row, log: &str, noted: &str) -> Result<(), Fail> {
    let alloc = rt.alloc();
    let mut report = joined(alloc, &REPORTED_UP, row.up, row.report, noted)?;
    report.push_str(END)?;
    let wanted = on_both(alloc, &report)?;
    let (status, written) = replay(alloc, "both", row.config, row.manifest, log)?;
    assert_eq!(rt; status, Status::Done, "for {}", row.what);
    assert_eq!(rt; written.as_slice(), wanted.as_bytes(), "for {}", row.what);
    Ok(())
}

#[test]
fn rows_give_their_reports(rt: HostRuntime) -> Result<(), Fail> {
    for row in &ROWS {
        let log = log_of(rt.alloc(), row)?;
        expect(&rt, row, &log, "")?;
    }
    Ok(())
}

#[test]
fn each_host_packs_by_its_rule(rt: HostRuntime) -> Result<(), Fail> {
    let alloc = rt.alloc();
    let log = log_of(alloc, &SECTIONS)?;
    for (host, sent) in PACKED {
        let mut report = joined(alloc, &REPORTED_UP, SECTIONS.up, sent, SECTIONS.report)?;
        report.push_str(END)?;
        let (status, written) = replay(alloc, host, C, "", &log)?;
        assert_eq!(rt; status, Status::Done, "on {host}");
        assert_eq!(rt; written.as_slice(), report.as_bytes(), "on {host}");
    }
    Ok(())
}

#[test]
fn extensions_give_their_reports(rt: HostRuntime) -> Result<(), Fail> {
    for extension in &EXTENSIONS {
        let row = extension.row();
        let log = log_of(rt.alloc(), &row)?;
        expect(&rt, &row, &log, extension.noted)?;
    }
    Ok(())
}

#[test]
fn a_bad_line_has_its_status(rt: HostRuntime) -> Result<(), Fail> {
    let (status, written) = replay(rt.alloc(), "listed", C, "", "time 5\ntime 4\n")?;
    assert_eq!(rt; status, Status::BadLog(2));
    assert_eq!(rt; status.code(), 7);
    assert_eq!(rt; written.as_slice(), b"fault log 2\n".as_slice());
    Ok(())
}
