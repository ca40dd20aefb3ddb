//! The end of a run: a text or the line of a status is written, and the status says how that went.
ghost use Rattle.std.specs.Prelude.{◌≡◌, ◌⊎◌, ◌+◌, ◌≤◌, ◌++◌, ◌∷◌, [], length, decimal, Err, IfOk};
ghost use Rattle.xb_values.specs.Texts.{spaced};
ghost use Rattle.xbgp_top.specs.Answers.{answered, ended, fault_text};
ghost use Rattle.xbgp_top.specs.Outputs.{Writes, end_status};
ghost use Rattle.xbgp_top.specs.Views.{text_view};
ghost use Rattle.xbgp_top.specs.Words.{kind_word, part_word};

use crate::Status;
use crate::word::{file_word, kind_word, load_word, part_word};
use std::alloc::{AllocError, Global};
use xb_domain::{BadKind, Part};
use xb_io::{Halt, Sink};
use xb_values::{Buf, append_decimal};

/// How many octets go to the sink at once.
pub(crate) const PAGE: usize = 65_536;

/// Room for most lines; a longer line gets more.
pub(crate) const LINE: usize = 1_024;

/// The last line of a whole text.
pub(crate) const END_LINE: &[u8] = b"end\n";

/// The line of Usage.
pub(crate) const USAGE_LINE: &[u8] = b"fault usage\n";

// Room for the line of any status: at most five words of 8 octets and two numbers of 10.
const FAULT_ROOM: usize = 96;

/// `status` if the text was written, or else why it wasn't.
pub(crate) fn end_status(end: Result<(), Halt>, status: Status) -> Status
    ensures { result ≡ end_status end status }
{
    match end {
        Ok(()) => status,
        Err(Halt::WriteFault) => Status::WriteFault,
        Err(Halt::OutOfMemory) => Status::OutOfMemory,
    }
}

/// Writes a text, and returns `status` unless the sink fails.
pub(crate) fn write_all<K: Sink>(sink: &mut K, text: &[u8], status: Status) -> Status
    ensures writes { Writes (answered status text.now) K.took K.faults sink.old sink.new result }
    ensures either { (result ≡ status) ⊎ (result ≡ Status.WriteFault) }
{
    match sink.put(text) {
        Ok(()) => status,
        Err(_) => Status::WriteFault,
    }
}

// Appends what is wrong, in which part and at which entry.
fn append_entry(line: &mut Buf, kind: BadKind, part: Part, index: u32)
    requires { length line.old.octets + 40 ≤ line.old.capacity }
    ensures entry { let words = spaced (kind_word kind ∷ part_word part ∷ decimal index ∷ []) in
        line.new ≡ record line.old { octets = line.old.octets ++ words } }
    ensures grown { length line.new.octets ≤ length line.old.octets + 40 }
{
    line.append(kind_word(kind));
    line.append(b" ");
    line.append(part_word(part));
    line.append(b" ");
    append_decimal(line, u64::from(index));
}

// The line of a status, or nothing for a status without a line.
fn fault_text(alloc: Global, status: Status) -> Result<Buf, AllocError>
    ensures { IfOk result (λ line. line.octets ≡ fault_text status) }
{
    let mut line = Buf::make(alloc, FAULT_ROOM)?;
    match status {
        Status::Usage => line.append(USAGE_LINE),
        Status::TooLong(file) => {
            line.append(b"fault long ");
            line.append(file_word(file));
            line.append(b"\n");
        }
        Status::BadConfig(fault) => {
            line.append(b"fault config ");
            append_entry(&mut line, fault.kind, fault.part, fault.index);
            line.append(b"\n");
        }
        Status::BadManifest(fault) => {
            line.append(b"fault manifest ");
            append_entry(&mut line, fault.kind, fault.part, fault.index);
            line.append(b" ");
            append_decimal(&mut line, u64::from(fault.slot));
            line.append(b"\n");
        }
        Status::BadLog(number) => {
            line.append(b"fault log ");
            append_decimal(&mut line, number);
            line.append(b"\n");
        }
        Status::BadStream(at) => {
            line.append(b"fault stream ");
            append_decimal(&mut line, at);
            line.append(b"\n");
        }
        Status::BadCode(fault) => {
            line.append(b"fault code ");
            line.append(load_word(fault.kind));
            line.append(b" ");
            append_decimal(&mut line, u64::from(fault.slot));
            line.append(b"\n");
        }
        Status::Done | Status::ReadFault | Status::WriteFault | Status::OutOfMemory => {}
    }
    Ok(line)
}

/// Writes the line of a status, and returns that status unless its line can't be written. After a fault of the shelf or
/// want of memory nothing is written.
pub(crate) fn refuse<K: Sink>(alloc: Global, status: Status, sink: &mut K) -> Status
    ensures writes { Writes (ended (Err status)) K.took K.faults sink.old sink.new result }
    ensures read { status ≡ Status.ReadFault → result ≡ Status.ReadFault }
{
    match status {
        Status::ReadFault | Status::OutOfMemory => return status,
        _ => {}
    }
    match fault_text(alloc, status) {
        Ok(line) => write_all(sink, line.as_slice(), status),
        Err(_) => Status::OutOfMemory,
    }
}

/// Writes a text, or the line of the status that ended a command before it had one.
pub(crate) fn print_text<K: Sink>(alloc: Global, text: Result<Buf, Status>, sink: &mut K) -> Status
    ensures writes { Writes (ended (text_view text)) K.took K.faults sink.old sink.new result }
    ensures read { text_view text ≡ Err Status.ReadFault → result ≡ Status.ReadFault }
{
    match text {
        Ok(text) => write_all(sink, text.as_slice(), Status::Done),
        Err(status) => refuse(alloc, status, sink),
    }
}
