//! The command `heard`: the table that a stream of messages announces, a line for each prefix.
ghost use Rattle.std.specs.Prelude.{◌≡◌, ◌++◌, OnOk};
ghost use Rattle.spk_model.specs.Reports.{end_line};
ghost use Rattle.xbgp_top.specs.Answers.{ended, heard_line, heard_outcome, heard_lines};
ghost use Rattle.xb_io.specs.Pages.{Gathers, Puts};
ghost use Rattle.xbgp_top.specs.Outputs.{Writes};

use crate::Status;
use crate::output::{END_LINE, LINE, PAGE, end_status, refuse};
use heard_table::{HeardError, Table, heard};
use std::alloc::{AllocError, Global};
use xb_io::{Halt, Sink, begin_line, gather, put_text};
use xb_values::{Buf, Prefix, append_hex, append_prefix};

// Room in a line for all but the digits of the section: a prefix of at most 18 octets, a space, `-` and the line's end.
const AROUND_SECTION: usize = 24;

// Writes the line of a prefix and its section.
fn write_entry(
    alloc: Global,
    line: &mut Buf,
    prefix: Prefix,
    section: &[u8],
) -> Result<(), AllocError>
    ensures { OnOk result (line.new.octets ≡ heard_line (prefix, section.now)) }
{
    let digits = section.len().checked_mul(2).ok_or(AllocError)?;
    begin_line(
        alloc,
        line,
        digits.checked_add(AROUND_SECTION).ok_or(AllocError)?,
    )?;
    append_prefix(line, prefix);
    line.append(b" ");
    append_hex(line, section);
    line.append(b"\n");
    Ok(())
}

// Gathers the lines of a table on a page.
fn gather_table<K: Sink>(
    alloc: Global,
    table: &Table<'_>,
    page: &mut Buf,
    sink: &mut K,
) -> Result<(), Halt>
    ensures { Gathers K.took K.faults sink.old sink.new page.old.octets page.new.octets (heard_lines table.now) result }
{
    let mut line = Buf::make(alloc, LINE)?;
    let mut entries = table.entries();
    'entries: while let Some(entry) = entries.next() {
        write_entry(alloc, &mut line, entry.0, entry.1)?;
        gather(page, line.as_slice(), sink)?;
    }
    Ok(())
}

// Writes the lines of a table and the last line.
fn put_table<K: Sink>(alloc: Global, table: &Table<'_>, sink: &mut K) -> Result<(), Halt>
    ensures { Puts K.took K.faults sink.old sink.new (heard_lines table.now ++ end_line) result }
{
    let mut page = Buf::make(alloc, PAGE)?;
    gather_table(alloc, table, &mut page, sink)?;
    gather(&mut page, END_LINE, sink)?;
    put_text(sink, page.as_slice())
}

/// Writes the table that a stream announces, or the offset at which the stream is refused.
pub(crate) fn print_heard<K: Sink>(alloc: Global, octets: &[u8], sink: &mut K) -> Status
    ensures { Writes (ended (heard_outcome octets.now)) K.took K.faults sink.old sink.new result }
{
    match heard(alloc, octets) {
        Ok(table) => end_status(put_table(alloc, &table, sink), Status::Done),
        Err(HeardError::OutOfMemory) => Status::OutOfMemory,
        Err(HeardError::Bad { at }) => refuse(alloc, Status::BadStream(at as u64), sink),
    }
}
