ghost use Rattle.replay_log.specs.Readings.{IsReadAhead};

use replay_log::{Got, LINE_LIMIT, LogReader, OCTETS_LIMIT, parse_line};
use std::fs;
use std::process::Abort;
use std::test::Fail;
use xb_io::{FileShelf, MemShelf, Shelf};
use xb_values::Buf;

// What a line says for 3 peers and from clock 5 on.
fn said(rt: &(impl AllocGlobal + Abort), line: &[u8]) -> Result<String, Fail> {
    assert!(rt; line.len() <= LINE_LIMIT);
    let mut octets = Buf::make(rt.alloc(), OCTETS_LIMIT)?;
    let line = parse_line(line, 3, 5, &mut octets);
    Ok(format!(in rt.alloc(); "{line:?}")?)
}

// Lines, and what each says; `None` is outside the grammar.
const LINES: [(&str, &str); 38] = [
    ("", "Some(Blank)"),
    ("#", "Some(Blank)"),
    ("# x", "Some(Blank)"),
    (" ", "None"),
    (" # x", "None"),
    ("\r", "None"),
    ("start 1", "Some(Event(Start(1)))"),
    ("stop 2", "Some(Event(Stop(2)))"),
    ("up 3", "Some(Event(Up(3)))"),
    ("down 1", "Some(Event(Down(1)))"),
    ("drain 3", "Some(Event(Drain(3)))"),
    ("start 0", "None"),
    ("start 4", "None"),
    ("start 01", "None"),
    ("start", "None"),
    ("start  1", "None"),
    ("start 1 ", "None"),
    ("start 1 1", "None"),
    ("Start 1", "None"),
    ("in 1 FFff", "Some(Event(Octets(1, [255, 255])))"),
    ("in 3 0a", "Some(Event(Octets(3, [10])))"),
    ("in 1", "None"),
    ("in 1 ", "None"),
    ("in 1 0a0", "None"),
    ("in 1 0g", "None"),
    ("in 4 0a", "None"),
    ("time 5", "Some(Event(Time(5)))"),
    ("time 4294967295", "Some(Event(Time(4294967295)))"),
    ("time 4294967296", "None"),
    ("time 4", "None"),
    ("time 05", "None"),
    ("room 1 1", "Some(Event(Room(1, 1)))"),
    ("room 1 4294967295", "Some(Event(Room(1, 4294967295)))"),
    ("room 1 4294967296", "None"),
    ("room 1 0", "None"),
    ("rescan", "Some(Event(Rescan))"),
    ("rescan ", "None"),
    ("rescan 1", "None"),
];

#[test]
fn lines_are_parsed(rt: HostRuntime) -> Result<(), Fail> {
    for (line, want) in &LINES {
        assert_eq!(rt; said(&rt, line.as_bytes())?.as_str(), *want, "{line}");
    }
    Ok(())
}

// What `next_line` is to return, and the line if there is one.
type Row = (Got, &'static [u8]);

const END: Row = (Got::End, b"");

const FAILED: Row = (Got::Failed, b"");

fn expect_line(rt: &impl Abort, reader: &LogReader, line: &[u8]) {
    assert_eq!(rt; reader.line(), line);
}

// Each call for the next line returns what its row says.
fn expect<S: Shelf>(
    rt: &impl Abort,
    reader: &mut LogReader,
    shelf: &mut S,
    name: &str,
    rows: &[Row],
)
    requires ahead { IsReadAhead (S.held shelf.old) name.now reader.old }
    ensures ahead { IsReadAhead (S.held shelf.new) name.now reader.new }
{
    'rows: for (got, line) in rows {
        assert_eq!(rt; reader.next_line(shelf, name), *got);
        if *got == Got::Line {
            expect_line(rt, reader, line);
        }
    }
}

#[test]
fn a_log_is_read_line_by_line(rt: HostRuntime) -> Result<(), Fail> {
    let mut shelf = MemShelf::make(rt.alloc())?;
    shelf.add("log", b"start 1\n\nup 1")?;
    let mut reader = LogReader::make(rt.alloc())?;
    let rows: [Row; 4] = [
        (Got::Line, b"start 1"),
        (Got::Line, b""),
        (Got::Line, b"up 1"),
        END,
    ];
    expect(&rt, &mut reader, &mut shelf, "log", &rows);
    Ok(())
}

#[test]
fn an_empty_log_has_no_line(rt: HostRuntime) -> Result<(), Fail> {
    let mut shelf = MemShelf::make(rt.alloc())?;
    shelf.add("log", b"")?;
    let mut reader = LogReader::make(rt.alloc())?;
    expect(&rt, &mut reader, &mut shelf, "log", &[END]);
    Ok(())
}

#[test]
fn a_failed_read_is_no_end(rt: HostRuntime) -> Result<(), Fail> {
    let mut shelf = MemShelf::make(rt.alloc())?;
    shelf.add("log", b"up 1")?;
    shelf.fail_at(2)?;
    let mut reader = LogReader::make(rt.alloc())?;
    let rows: [Row; 2] = [FAILED, (Got::Line, b"up 1")];
    expect(&rt, &mut reader, &mut shelf, "log", &rows);
    Ok(())
}

#[test]
fn a_log_that_is_not_held_fails(rt: HostRuntime) -> Result<(), Fail> {
    let mut shelf = MemShelf::make(rt.alloc())?;
    let mut reader = LogReader::make(rt.alloc())?;
    expect(&rt, &mut reader, &mut shelf, "log", &[FAILED]);
    Ok(())
}

// The name is removed after the first line; the file that is open is read on.
#[test]
fn a_file_stays_open_between_lines(rt: HostRuntime) -> Result<(), Fail> {
    fs::write(&rt, "log", "start 1\nup 1\n")?;
    let mut reader = LogReader::make(rt.alloc())?;
    let mut other = LogReader::make(rt.alloc())?;
    let mut shelf = FileShelf::new(&rt);
    expect(
        &rt,
        &mut reader,
        &mut shelf,
        "log",
        &[(Got::Line, b"start 1")],
    );
    fs::remove_file(&rt, "log")?;
    expect(
        &rt,
        &mut reader,
        &mut shelf,
        "log",
        &[(Got::Line, b"up 1"), END],
    );
    expect(&rt, &mut other, &mut shelf, "other", &[FAILED]);
    Ok(())
}

#[test]
fn a_line_has_a_limit(rt: HostRuntime) -> Result<(), Fail> {
    let line = vec![in rt.alloc(); b'x'; LINE_LIMIT + 1]?;
    let mut shelf = MemShelf::make(rt.alloc())?;
    shelf.add("short", &line[..LINE_LIMIT])?;
    shelf.add("long", &line)?;
    let mut reader = LogReader::make(rt.alloc())?;
    let mut other = LogReader::make(rt.alloc())?;
    let got = (
        reader.next_line(&mut shelf, "short"),
        other.next_line(&mut shelf, "long"),
    );
    assert_eq!(rt; got, (Got::Line, Got::LineTooLong));
    Ok(())
}
