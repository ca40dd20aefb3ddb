//! Lines on their way to a sink. Each is written in memory of its own, and gathered on a page after those before it.
ghost use Rattle.std.specs.Prelude.{◌≡◌, ◌+◌, ◌*◌, ◌^◌, ◌<◌, ◌≤◌, [], length, IfOk, OnOk};
ghost use Rattle.xb_domain.specs.Views.{output_view};
ghost use Rattle.xb_io.specs.Pages.{Gathers, Puts};
ghost use Rattle.table_print.specs.Lines.{adv_line, drained_line, fault_line, map_line, output_line, route_line};
ghost use Rattle.spk_model.specs.Reports.{bad_log_line};
ghost use Rattle.spk_model.specs.Ends.{peer_number, sent_octets};

use bpf_machine::Cause;
use std::alloc::{AllocError, Global};
use std::marker::Model;
use table_print::{adv_line, drained_line, fault_line, map_line, output_line, route_line};
use xb_domain::{Output, Point};
use xb_io::{Halt, Sink, begin_line, gather, put_text};
use xb_values::{Buf, Prefix, append_decimal};

// How many octets go to the sink at once.
const PAGE: usize = 65_536;

// Room for most lines; a longer line gets more.
const LINE: usize = 1_024;

// Room in a line for all but what is given in octets or by a name.
const WORDS: usize = 96;

/// What was gathered and is not written yet, and memory for a line. Contracts see what was gathered.
#[derive(Drop)]
pub(crate) struct Page {
    alloc: Global,
    gathered: Buf,
    line: Buf,
}

impl Model for Page {
    ghost use Rattle.std.specs.Prelude.{ℕ, List};

    ghost Value = { List ℕ };

    ghost view = { λ p. (p.gathered).octets };
}

// Empties a line, and gives it room for words and for the digits of octets.
fn begin_words(alloc: Global, line: &mut Buf, octets: usize) -> Result<(), AllocError>
    ensures empty { OnOk result (line.new.octets ≡ []) }
    ensures room { OnOk result (WORDS + 2 * octets ≤ line.new.capacity) }
{
    let digits = octets.checked_mul(2).ok_or(AllocError)?;
    begin_line(alloc, line, digits.checked_add(WORDS).ok_or(AllocError)?)
}

// How many octets are sent. A peer's number has 32 bits.
fn sent_octets(item: Output<'_>) -> usize
    ensures octets { result ≡ sent_octets (output_view item.entry) }
    ensures number { peer_number (output_view item.entry) < 2 ^ 32 }
{
    match item {
        Output::Up(_peer) | Output::Down(_peer) => 0,
        Output::Sent(_peer, octets) => octets.len(),
    }
}

// The sum of three numbers of octets. The error: there is no memory for more than a `usize` counts.
fn total_of(first: usize, second: usize, third: usize) -> Result<usize, AllocError>
    ensures { IfOk result (λ total. total ≡ first + second + third) }
{
    let two = first.checked_add(second).ok_or(AllocError)?;
    two.checked_add(third).ok_or(AllocError)
}

// Writes the line of an output.
fn write_output(alloc: Global, line: &mut Buf, item: Output<'_>) -> Result<(), AllocError>
    ensures { OnOk result (line.new.octets ≡ output_line (output_view item.entry)) }
{
    begin_words(alloc, line, sent_octets(item))?;
    let _ = output_line(line, item);
    Ok(())
}

// Writes the line of a best route.
fn write_route(
    alloc: Global,
    line: &mut Buf,
    prefix: Prefix,
    source: u32,
    section: &[u8],
) -> Result<(), AllocError>
    ensures { OnOk result (line.new.octets ≡ route_line prefix source section.now) }
{
    let _ = prefix.addr();
    begin_words(alloc, line, section.len())?;
    let _ = route_line(line, prefix, source, section);
    Ok(())
}

// Writes the line of an advertised prefix.
fn write_adv(
    alloc: Global,
    line: &mut Buf,
    peer: u32,
    prefix: Prefix,
    section: &[u8],
) -> Result<(), AllocError>
    ensures { OnOk result (line.new.octets ≡ adv_line peer prefix section.now) }
{
    let _ = prefix.addr();
    begin_words(alloc, line, section.len())?;
    let _ = adv_line(line, peer, prefix, section);
    Ok(())
}

// Writes the line of a drained peer.
fn write_drained(alloc: Global, line: &mut Buf, peer: u32) -> Result<(), AllocError>
    ensures { OnOk result (line.new.octets ≡ drained_line peer) }
{
    begin_words(alloc, line, 0)?;
    let _ = drained_line(line, peer);
    Ok(())
}

// Writes the line of an entry of a map.
fn write_entry(
    alloc: Global,
    line: &mut Buf,
    name: &str,
    key: &[u8],
    value: &[u8],
) -> Result<(), AllocError>
    ensures { OnOk result (line.new.octets ≡ map_line name.now key.now value.now) }
{
    let octets = total_of(name.len(), key.len(), value.len())?;
    begin_words(alloc, line, octets)?;
    let _ = map_line(line, name, key, value);
    Ok(())
}

// Writes the line of a fault of a program.
fn write_fault(
    alloc: Global,
    line: &mut Buf,
    name: &str,
    point: Point,
    cause: Cause,
) -> Result<(), AllocError>
    ensures { OnOk result (line.new.octets ≡ fault_line name.now point cause) }
{
    begin_words(alloc, line, name.len())?;
    let _ = fault_line(line, name, point, cause);
    Ok(())
}

// Writes the line of a log that is refused at a line.
fn write_bad_log(alloc: Global, line: &mut Buf, number: u64) -> Result<(), AllocError>
    ensures { OnOk result (line.new.octets ≡ bad_log_line number) }
{
    begin_words(alloc, line, 0)?;
    line.append(b"fault log ");
    append_decimal(line, number);
    line.append(b"\n");
    Ok(())
}

impl Page {
    /// An empty page. The error is want of memory.
    pub(crate) fn make(alloc: Global) -> Result<Page, AllocError>
        ensures { IfOk result (λ page. page ≡ []) }
    {
        Ok(Page {
            alloc,
            gathered: Buf::make(alloc, PAGE)?,
            line: Buf::make(alloc, LINE)?,
        })
    }

    /// Gathers a text.
    pub(crate) fn text<K: Sink>(&mut self, text: &[u8], sink: &mut K) -> Result<(), Halt>
        ensures { Gathers K.took K.faults sink.old sink.new self.old self.new text.now result }
    {
        gather(&mut self.gathered, text, sink)
    }

    /// Gathers the line of an output.
    pub(crate) fn output<K: Sink>(&mut self, item: Output<'_>, sink: &mut K) -> Result<(), Halt>
        ensures { let line = output_line (output_view item.entry) in
            Gathers K.took K.faults sink.old sink.new self.old self.new line result }
    {
        write_output(self.alloc, &mut self.line, item)?;
        gather(&mut self.gathered, self.line.as_slice(), sink)
    }

    /// Gathers the line of a best route.
    pub(crate) fn route<K: Sink>(
        &mut self,
        prefix: Prefix,
        source: u32,
        section: &[u8],
        sink: &mut K,
    ) -> Result<(), Halt>
        ensures { let line = route_line prefix source section.now in
            Gathers K.took K.faults sink.old sink.new self.old self.new line result }
    {
        write_route(self.alloc, &mut self.line, prefix, source, section)?;
        gather(&mut self.gathered, self.line.as_slice(), sink)
    }

    /// Gathers the line of a prefix that is advertised to a peer.
    pub(crate) fn adv<K: Sink>(
        &mut self,
        peer: u32,
        prefix: Prefix,
        section: &[u8],
        sink: &mut K,
    ) -> Result<(), Halt>
        ensures { let line = adv_line peer prefix section.now in
            Gathers K.took K.faults sink.old sink.new self.old self.new line result }
    {
        write_adv(self.alloc, &mut self.line, peer, prefix, section)?;
        gather(&mut self.gathered, self.line.as_slice(), sink)
    }

    /// Gathers the line of a peer for which nothing is left.
    pub(crate) fn drained<K: Sink>(&mut self, peer: u32, sink: &mut K) -> Result<(), Halt>
        ensures { Gathers K.took K.faults sink.old sink.new self.old self.new (drained_line peer) result }
    {
        write_drained(self.alloc, &mut self.line, peer)?;
        gather(&mut self.gathered, self.line.as_slice(), sink)
    }

    /// Gathers the line of an entry of the map with that name.
    pub(crate) fn entry<K: Sink>(
        &mut self,
        name: &str,
        key: &[u8],
        value: &[u8],
        sink: &mut K,
    ) -> Result<(), Halt>
        ensures { let line = map_line name.now key.now value.now in
            Gathers K.took K.faults sink.old sink.new self.old self.new line result }
    {
        write_entry(self.alloc, &mut self.line, name, key, value)?;
        gather(&mut self.gathered, self.line.as_slice(), sink)
    }

    /// Gathers the line of a fault of the program with that name.
    pub(crate) fn fault<K: Sink>(
        &mut self,
        name: &str,
        point: Point,
        cause: Cause,
        sink: &mut K,
    ) -> Result<(), Halt>
        ensures { let line = fault_line name.now point cause in
            Gathers K.took K.faults sink.old sink.new self.old self.new line result }
    {
        write_fault(self.alloc, &mut self.line, name, point, cause)?;
        gather(&mut self.gathered, self.line.as_slice(), sink)
    }

    /// Gathers the line of a log that is refused at the line of that number.
    pub(crate) fn bad_log<K: Sink>(&mut self, number: u64, sink: &mut K) -> Result<(), Halt>
        ensures { let line = bad_log_line number in
            Gathers K.took K.faults sink.old sink.new self.old self.new line result }
    {
        write_bad_log(self.alloc, &mut self.line, number)?;
        gather(&mut self.gathered, self.line.as_slice(), sink)
    }

    /// Writes what is gathered.
    pub(crate) fn put<K: Sink>(&self, sink: &mut K) -> Result<(), Halt>
        ensures { Puts K.took K.faults sink.old sink.new self.now result }
    {
        put_text(sink, self.gathered.as_slice())
    }
}
