//! Lists with as many entries, and code with as many digits, as they may have, and with more.
use super::expect;
use std::alloc::{AllocError, Global};
use std::test::Fail;

const MAP: &str = "key = 1\nvalue = 1\nentries = 1\n";

const PROGRAM: &str = "point = 'encode'\nfuel = 1\ncode = '9500000000000000'\n";

// A list, the number of its entries, what is in each, what is after them, and what `check` prints.
type Case = (&'static str, u32, &'static str, &'static str, &'static str);

// A list is counted before its entries are judged.
const CASES: [Case; 6] = [
    ("map", 16, MAP, "", "maps 16\nprograms 0"),
    ("map", 17, MAP, "", "count top 0 0"),
    ("map", 16, MAP, "[[map]]\nname = 'x0'\n", "count top 0 0"),
    ("program", 32, PROGRAM, "", "maps 0\nprograms 32"),
    ("program", 33, PROGRAM, "", "count top 0 0"),
    (
        "program",
        32,
        PROGRAM,
        "[[program]]\nname = 'x0'\n",
        "count top 0 0",
    ),
];

// Moves of 0 into r0, what is after them, and what `check` prints. 4,096 slots are 65,536 digits.
const CODES: [(u32, &str, &str); 4] = [
    (4095, "9500000000000000", "maps 0\nprograms 1"),
    (4096, "95", "range program 1 0"),
    (4096, "9500000000000000", "range program 1 0"),
    (4096, "", "openend program 1 4095"),
];

// A list of entries with names that differ.
fn listed(
    alloc: Global,
    list: &str,
    count: u32,
    entry: &str,
    last: &str,
) -> Result<String, AllocError> {
    let mut text = String::from_str(alloc, "version = 1\n")?;
    for i in 0..count {
        write!(text, "[[{list}]]\nname = 'x{i}'\n{entry}")?;
    }
    text.push_str(last)?;
    Ok(text)
}

#[test]
fn entries_are_counted(rt: HostRuntime) -> Result<(), Fail> {
    for (list, count, entry, last, want) in &CASES {
        let text = listed(rt.alloc(), list, *count, entry, last)?;
        expect(&rt, text.as_bytes(), want)?;
    }
    Ok(())
}

fn coded(alloc: Global, count: u32, end: &str) -> Result<String, AllocError> {
    let mut text = String::from_str(alloc, "version = 1\n[[program]]\nname = 'p'\n")?;
    text.push_str("point = 'decision'\nfuel = 1\ncode = '")?;
    for _ in 0..count {
        text.push_str("b700000000000000")?;
    }
    write!(text, "{end}'\n")?;
    Ok(text)
}

#[test]
fn digits_are_counted(rt: HostRuntime) -> Result<(), Fail> {
    for (count, end, want) in &CODES {
        let text = coded(rt.alloc(), *count, end)?;
        expect(&rt, text.as_bytes(), want)?;
    }
    Ok(())
}
