use std::alloc::{AllocError, Global};
use std::fs;
use std::process::Abort;
use std::test::Fail;
use xb_base::{
    Brand, Buf, FileShelf, MemShelf, MemSink, Output, Outputs, Prefix, Shelf, Sink, StdSink, Steps,
    gather, push_decimal, push_dotted, push_hex, push_prefix, put_text, read_decimal, read_dotted,
    read_prefix,
};

#[test]
fn a_buffer_takes_what_fits(rt: HostRuntime) -> Result<(), Fail> {
    let mut buf = Buf::make(rt.alloc(), 2)?;
    assert!(rt; buf.push(b"ab"));
    assert!(rt; !buf.push(b"c"));
    assert_eq!(rt; buf.as_slice(), b"ab".as_slice());
    Ok(())
}

#[test]
fn texts_are_written(rt: HostRuntime) -> Result<(), Fail> {
    let mut buf = Buf::make(rt.alloc(), 80)?;
    let prefix = Prefix::new(0x0a00_00ff, 24).ok_or("prefix")?;
    let written = [
        push_prefix(&mut buf, prefix),
        push_hex(&mut buf, &[0xde, 0x0a]),
        push_hex(&mut buf, &[]),
        push_dotted(&mut buf, 0xc000_02fe),
        push_decimal(&mut buf, u64::MAX),
    ];
    assert_eq!(rt; written, [true; 5]);
    assert_eq!(rt;
        buf.as_slice(),
        b"10.0.0.0/24de0a-192.0.2.25418446744073709551615".as_slice()
    );
    Ok(())
}

const DECIMALS: [(&[u8], Option<u64>); 5] = [
    (b"0", Some(0)),
    (b"05", None),
    (b"", None),
    (b"18446744073709551615", Some(u64::MAX)),
    (b"18446744073709551616", None),
];

const DOTTED: [(&[u8], Option<u32>); 3] = [
    (b"10.0.0.1", Some(0x0a00_0001)),
    (b"10.0.0", None),
    (b"10.0.0.256", None),
];

#[test]
fn numbers_are_read(rt: HostRuntime) {
    for (text, number) in &DECIMALS {
        assert_eq!(rt; read_decimal(text), *number, "{text:?}");
    }
    for (text, address) in &DOTTED {
        assert_eq!(rt; read_dotted(text), *address, "{text:?}");
    }
}

#[test]
fn prefixes_are_read(rt: HostRuntime) {
    let ten = Prefix::new(0x0a00_0000, 24);
    assert_eq!(rt; read_prefix(b"10.0.0.255/24"), ten);
    assert_eq!(rt; read_prefix(b"10.0.0.0/33"), None);
    assert_eq!(rt; read_prefix(b"10.0.0.0/024"), None);
}

// A name, an offset, and the octets that a read gives, if it doesn't fail.
type Read = (&'static str, u64, Option<&'static [u8]>);

fn gives<S: Shelf>(
    shelf: &mut S,
    name: &str,
    at: u64,
    piece: &mut [u8],
    octets: Option<&[u8]>,
) -> bool {
    match (shelf.read(name, at, piece), octets) {
        (Ok(count), Some(octets)) => piece.get(..count) == Some(octets),
        (Err(_), None) => true,
        _ => false,
    }
}

fn expect_reads<S: Shelf>(rt: &impl Abort, shelf: &mut S, piece: &mut [u8], reads: &[Read]) {
    for (name, at, octets) in reads {
        assert!(rt; gives(shelf, name, *at, piece, *octets), "{name} at {at}");
    }
}

const FILE: [Read; 5] = [
    ("octets", 0, Some(b"ab")),
    ("octets", 2, Some(b"c")),
    ("octets", 3, Some(b"")),
    ("octets", 1, Some(b"bc")),
    ("absent", 0, None),
];

#[test]
fn a_file_is_read(rt: HostRuntime) -> Result<(), Fail> {
    fs::write(&rt, "octets", "abc")?;
    let mut shelf = FileShelf::new(&rt);
    expect_reads(&rt, &mut shelf, &mut [0; 2], &FILE);
    Ok(())
}

#[test]
fn standard_output_takes_a_line(rt: HostRuntime) -> Result<(), Fail> {
    let mut sink = StdSink::new(&rt);
    assert!(rt; sink.put(b"a line\n").is_ok());
    Ok(())
}

// The later octets of a name count, and the second call fails.
const MEMORY: [Read; 3] = [("x", 0, Some(b"de")), ("x", 0, None), ("x", 2, Some(b""))];

#[test]
fn reads_in_memory_fail_by_number(rt: HostRuntime) -> Result<(), Fail> {
    let mut shelf = MemShelf::make(rt.alloc())?;
    shelf.add("x", b"abc")?;
    shelf.add("x", b"de")?;
    shelf.fail_at(2)?;
    expect_reads(&rt, &mut shelf, &mut [0; 8], &MEMORY);
    Ok(())
}

#[test]
fn writes_in_memory_fail_by_number(rt: HostRuntime) -> Result<(), Fail> {
    let mut sink = MemSink::make(rt.alloc(), 3)?;
    sink.fail_at(2)?;
    let taken = [
        sink.put(b"ab").is_ok(),
        sink.put(b"c").is_ok(),
        sink.put(b"cd").is_ok(),
    ];
    assert_eq!(rt; taken, [true, false, false]);
    assert_eq!(rt; sink.taken(), b"abc".as_slice());
    Ok(())
}

#[test]
fn a_full_page_goes_to_the_sink(rt: HostRuntime) -> Result<(), Fail> {
    let mut sink = MemSink::make(rt.alloc(), 8)?;
    let mut page = Buf::make(rt.alloc(), 4)?;
    for (text, taken) in [(b"abc".as_slice(), b"".as_slice()), (b"de", b"abc")] {
        assert!(rt; gather(&mut page, text, &mut sink).is_ok());
        assert_eq!(rt; sink.taken(), taken);
    }
    assert!(rt; put_text(&mut sink, page.as_slice()).is_ok());
    assert_eq!(rt; sink.taken(), b"abcde".as_slice());
    Ok(())
}

fn text_of(alloc: Global, outputs: &Outputs) -> Result<String, AllocError> {
    let mut text = String::new(alloc);
    for i in 0..outputs.len() {
        write!(text, "{:?} ", outputs.get(i))?;
    }
    Ok(text)
}

#[test]
fn outputs_are_moved(rt: HostRuntime) -> Result<(), Fail> {
    let mut more = Outputs::make(rt.alloc())?;
    more.add(Output::Up(2))?;
    let mut outputs = Outputs::make(rt.alloc())?;
    outputs.add(Output::Sent(1, b"ab"))?;
    more.append(&mut outputs)?;
    assert_eq!(rt; text_of(rt.alloc(), &outputs)?.as_str(), "");
    assert_eq!(rt;
        text_of(rt.alloc(), &more)?.as_str(),
        "Up(2) Sent(1, [97, 98]) "
    );
    more.clear();
    assert_eq!(rt; more.len(), 0);
    Ok(())
}

#[test]
fn steps_are_counted(rt: HostRuntime) {
    let mut steps = Steps::<Brand>::start();
    steps.tick();
    assert_eq!(rt; steps.count(), 1);
}
