mod bytecode;
mod memory;
mod refusals;
mod streams;
mod texts;
mod work;

use std::alloc::{AllocError, Global};
use std::process::Abort;
use std::test::Fail;
use xb_io::{MemShelf, MemSink};
use xbgp_top::{Status, run};

// The attributes of a route by AS 65001 with next hop 192.0.2.1.
const ROUTE: [u8; 18] = [
    0x40, 1, 1, 0, 0x40, 2, 4, 2, 1, 0xfd, 0xe9, 0x40, 3, 4, 192, 0, 2, 1,
];

// A message whose length field counts all of it.
fn message(alloc: Global, kind: u8, body: &[u8]) -> Result<Vec<u8>, Fail> {
    let len = u16::try_from(body.len() + 19).ok().ok_or("long")?;
    let [high, low] = len.to_be_bytes();
    let mut octets = Vec::from_slice(alloc, &[255; 16])?;
    octets.extend_from_slice(&[high, low, kind])?;
    octets.extend_from_slice(body)?;
    Ok(octets)
}

// An UPDATE that announces prefixes with that route.
fn update(alloc: Global, nlri: &[u8]) -> Result<Vec<u8>, Fail> {
    let mut body = Vec::from_slice(alloc, &[0, 0, 0, 18])?;
    body.extend_from_slice(&ROUTE)?;
    body.extend_from_slice(nlri)?;
    message(alloc, 2, &body)
}

fn zeros(alloc: Global, count: usize) -> Result<Vec<u8>, Fail> {
    Ok(vec![in alloc; 0u8; count]?)
}

// The words of a command line, and the status and the text that they are to give.
#[derive(Clone, Copy)]
struct Case<'a> {
    words: &'a [&'a str],
    status: Status,
    text: &'a str,
}

// The words that give Done.
fn done<'a>(words: &'a [&'a str], text: &'a str) -> Case<'a> {
    let status = Status::Done;
    Case {
        words,
        status,
        text,
    }
}

// The words that give another status.
fn refused<'a>(words: &'a [&'a str], status: Status, text: &'a str) -> Case<'a> {
    Case {
        words,
        status,
        text,
    }
}

// A shelf that holds `x` and the manifest `m`.
fn shelf_of(alloc: Global, x: &[u8], m: &[u8]) -> Result<MemShelf, Fail> {
    let mut shelf = MemShelf::make(alloc)?;
    shelf.add("x", x)?;
    shelf.add("m", m)?;
    Ok(shelf)
}

fn words_of(alloc: Global, words: &[&str]) -> Result<Vec<String>, AllocError> {
    let mut owned = Vec::new(alloc);
    for word in words {
        owned.push(String::from_str(alloc, word)?)?;
    }
    Ok(owned)
}

fn sink_of(alloc: Global, failing: u64) -> Result<MemSink, AllocError> {
    let mut sink = MemSink::make(alloc, 1000)?;
    sink.fail_at(failing)?;
    Ok(sink)
}

// The status that words give over a shelf, and what a sink takes, which fails at that call, or never at 0.
fn answer(
    alloc: Global,
    words: &[&str],
    shelf: &mut MemShelf,
    failing: u64,
) -> Result<(Status, Vec<u8>), Fail> {
    let words = words_of(alloc, words)?;
    let mut sink = sink_of(alloc, failing)?;
    let status = run(alloc, &words, shelf, &mut sink);
    Ok((status, Vec::from_slice(alloc, sink.taken())?))
}

// Each case is as it is to be, over a shelf that holds `x` and the manifest `m`.
fn expect(
    rt: &(impl AllocGlobal + Abort),
    x: &[u8],
    m: &[u8],
    cases: &[Case<'_>],
) -> Result<(), Fail> {
    let mut shelf = shelf_of(rt.alloc(), x, m)?;
    for case in cases {
        let (status, written) = answer(rt.alloc(), case.words, &mut shelf, 0)?;
        assert_eq!(rt; status, case.status, "for {}", case.text);
        assert_eq!(rt; written.as_slice(), case.text.as_bytes());
    }
    Ok(())
}
