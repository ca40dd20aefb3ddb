//! The commands `judge` and `judge4`: the verdict on each message of a stream, a line for each.
ghost use Rattle.std.specs.Prelude.{◌≡◌, ◌≤◌, ◌++◌, ◌∷◌, [], codes, decimal, length, OnOk};
ghost use Rattle.std.specs.Option.{option_map};
ghost use Rattle.xb_values.specs.Texts.{hex_text, line as line_of};
ghost use Rattle.spk_model.specs.Reports.{end_line};
ghost use Rattle.xbgp_top.specs.Answers.{ended, judge_line, judge_lines, judge_outcome, rest_offset};
ghost use Rattle.xb_io.specs.Pages.{Gathers, Puts};
ghost use Rattle.bgp_attr.specs.Paths.{width_of};
ghost use Rattle.bgp_check.specs.Judgement.{judge};
ghost use Rattle.bgp_update.specs.Views.{message_view};
ghost use Rattle.xb_wire.specs.Views.{notice_view};
ghost use Rattle.xbgp_top.specs.Outputs.{Writes};

use crate::Status;
use crate::output::{END_LINE, LINE, PAGE, end_status, refuse};
use bgp_check::{check_update, check_update4};
use bgp_update::{Messages, Msg};
use std::alloc::{AllocError, Global};
use xb_io::{Halt, Sink, begin_line, gather, put_text};
use xb_values::{Buf, append_decimal, append_hex};
use xb_wire::Notice;
use xb_wire::numbers::UPDATE;

// The most octets of a short word.
const WORD: usize = 20;

// Room in a line for an offset, a short word and what separates them.
const AROUND_WORD: usize = 64;

// Room in a line for all but the digits of a notice's data.
const AROUND_DATA: usize = 80;

// The offset of what is left of a stream after its messages.
#[tactic(auto, using(crate::proofs::JudgeLemmas::first_rest))]
fn refused_at(octets: &[u8]) -> Option<usize>
    ensures { result ≡ rest_offset octets.now }
{
    let mut messages = Messages::new(octets);
    'messages: while let Some(next) = messages.next() {
        if let Err(at) = next {
            return Some(at);
        }
    }
    None
}

// Writes an offset and a short word.
fn write_word(alloc: Global, line: &mut Buf, at: usize, word: &[u8]) -> Result<(), AllocError>
    requires { length word.now ≤ WORD }
    ensures { OnOk result (line.new.octets ≡ line_of (decimal at ∷ word.now ∷ [])) }
{
    begin_line(alloc, line, AROUND_WORD)?;
    append_decimal(line, at as u64);
    line.append(b" ");
    line.append(word);
    line.append(b"\n");
    Ok(())
}

// Writes an offset and a notice.
fn write_notice(
    alloc: Global,
    line: &mut Buf,
    at: usize,
    notice: &Notice<'_>,
) -> Result<(), AllocError>
    ensures { let digits = hex_text notice.now.extra.now in
        let words = codes "notice" ∷ decimal notice.now.code ∷ decimal notice.now.subcode ∷ digits ∷ [] in
        OnOk result (line.new.octets ≡ line_of (decimal at ∷ words)) }
{
    let digits = notice.extra.len().checked_mul(2).ok_or(AllocError)?;
    begin_line(
        alloc,
        line,
        digits.checked_add(AROUND_DATA).ok_or(AllocError)?,
    )?;
    append_decimal(line, at as u64);
    line.append(b" notice ");
    append_decimal(line, u64::from(notice.code));
    line.append(b" ");
    append_decimal(line, u64::from(notice.subcode));
    line.append(b" ");
    append_hex(line, notice.extra);
    line.append(b"\n");
    Ok(())
}

// The first fault of an UPDATE.
fn update_fault(body: &[u8], wide: bool) -> Option<Notice<'_>>
    ensures { option_map notice_view result ≡ judge (width_of wide) body.now }
{
    if wide {
        check_update4(body).err()
    } else {
        check_update(body).err()
    }
}

// Writes the verdict on a message.
fn write_verdict(
    alloc: Global,
    line: &mut Buf,
    message: &Msg<'_>,
    wide: bool,
) -> Result<(), AllocError>
    ensures { OnOk result (line.new.octets ≡ judge_line (width_of wide) (message_view message.now)) }
{
    if message.kind != UPDATE {
        return write_word(alloc, line, message.at, b"other");
    }
    match update_fault(message.body, wide) {
        None => write_word(alloc, line, message.at, b"clean"),
        Some(notice) => write_notice(alloc, line, message.at, &notice),
    }
}

// Gathers the verdicts on all messages on a page.
fn gather_verdicts<K: Sink>(
    alloc: Global,
    octets: &[u8],
    wide: bool,
    page: &mut Buf,
    sink: &mut K,
) -> Result<(), Halt>
    ensures { let lines = judge_lines (width_of wide) octets.now in
        Gathers K.took K.faults sink.old sink.new page.old.octets page.new.octets lines result }
{
    let mut line = Buf::make(alloc, LINE)?;
    let mut messages = Messages::new(octets);
    'messages: while let Some(next) = messages.next() {
        let Ok(message) = next else {
            return Ok(());
        };
        write_verdict(alloc, &mut line, &message, wide)?;
        gather(page, line.as_slice(), sink)?;
    }
    Ok(())
}

// Writes the verdicts and the last line.
fn put_verdicts<K: Sink>(alloc: Global, octets: &[u8], wide: bool, sink: &mut K) -> Result<(), Halt>
    ensures { let text = judge_lines (width_of wide) octets.now ++ end_line in
        Puts K.took K.faults sink.old sink.new text result }
{
    let mut page = Buf::make(alloc, PAGE)?;
    gather_verdicts(alloc, octets, wide, &mut page, sink)?;
    gather(&mut page, END_LINE, sink)?;
    put_text(sink, page.as_slice())
}

/// Writes the verdict on each message of a stream, or the offset of what is left after its messages. AS numbers have
/// four octets if `wide`, else two.
pub(crate) fn print_judged<K: Sink>(
    alloc: Global,
    octets: &[u8],
    wide: bool,
    sink: &mut K,
) -> Status
    ensures { let told = ended (judge_outcome (width_of wide) octets.now) in
        Writes told K.took K.faults sink.old sink.new result }
{
    match refused_at(octets) {
        Some(at) => refuse(alloc, Status::BadStream(at as u64), sink),
        None => end_status(put_verdicts(alloc, octets, wide, sink), Status::Done),
    }
}
