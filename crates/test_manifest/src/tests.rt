mod accepted;
mod counts;
mod helpers;
mod texts;

use std::alloc::{AllocError, Global};
use std::process::Abort;
use std::test::Fail;
use xb_io::{MemShelf, MemSink};
use xbgp_top::run;

// A text, and what `check` prints of it: the lines of its maps and programs, or its fault (kind, part, position, slot).
type Case = (&'static str, &'static str);

const CONFIG: &str = "[speaker]\nas = 65000\nid = '192.0.2.254'\naddress = '192.0.2.254'\n";

// A shelf that holds a configuration and a manifest.
fn shelf_of(alloc: Global, manifest: &[u8]) -> Result<MemShelf, AllocError> {
    let mut shelf = MemShelf::make(alloc)?;
    shelf.add("c", CONFIG.as_bytes())?;
    shelf.add("m", manifest)?;
    Ok(shelf)
}

// The words of the command.
fn command(alloc: Global) -> Result<Vec<String>, AllocError> {
    let mut words = Vec::new(alloc);
    for word in ["check", "c", "m"] {
        words.push(String::from_str(alloc, word)?)?;
    }
    Ok(words)
}

fn written(alloc: Global, sink: &MemSink) -> Result<String, Fail> {
    let text = str::from_utf8(sink.taken()).ok().ok_or("no text")?;
    Ok(String::from_str(alloc, text)?)
}

// The number of the status of `check` with a manifest, and what is written.
fn check(alloc: Global, manifest: &[u8]) -> Result<(u8, String), Fail> {
    let words = command(alloc)?;
    let mut shelf = shelf_of(alloc, manifest)?;
    let mut sink = MemSink::make(alloc, 1000)?;
    let status = run(alloc, &words, &mut shelf, &mut sink);
    Ok((status.code(), written(alloc, &sink)?))
}

// What is printed of a manifest, with its status.
fn expect(rt: &(impl AllocGlobal + Abort), manifest: &[u8], want: &str) -> Result<(), Fail> {
    let printed = check(rt.alloc(), manifest)?;
    let wanted = if want.starts_with("maps") {
        (
            0,
            format!(in rt.alloc(); "peers 0\nnetworks 0\n{want}\nend\n")?,
        )
    } else {
        (6, format!(in rt.alloc(); "fault manifest {want}\n")?)
    };
    assert_eq!(rt; printed, wanted);
    Ok(())
}

// Each text of a table, between a text before it and a text after it.
fn expect_all(
    rt: &(impl AllocGlobal + Abort),
    before: &str,
    cases: &[Case],
    after: &str,
) -> Result<(), Fail> {
    for (text, want) in cases {
        let manifest = format!(in rt.alloc(); "{before}{text}{after}")?;
        expect(rt, manifest.as_bytes(), want)?;
    }
    Ok(())
}

#[test]
fn texts_are_judged(rt: HostRuntime) -> Result<(), Fail> {
    for (before, cases, after) in &texts::TABLES {
        expect_all(&rt, before, cases, after)?;
    }
    expect(&rt, &[b'#', 0xff, b'\n'], "text top 0 0")
}
