//! The lines of a log, each played on a host.
ghost use Rattle.std.specs.Prelude.{◌≡◌, ◌<◌, ◌^◌, length};
ghost use Rattle.xb_domain.specs.Views.{event_view};
ghost use Rattle.replay_log.specs.Lines.{says};
ghost use Rattle.replay_log.specs.Logs.{line_clock};
ghost use Rattle.replay_log.specs.Views.{line_view};
ghost use Rattle.xb_io.specs.Pages.{Gathers};
ghost use Rattle.spk_model.specs.Reports.{output_lines};
ghost use Rattle.spk_model.specs.Ends.{Fits, PlaysLine, PlaysLines};

use crate::Host;
use crate::page::Page;
use crate::stop::Stop;
use replay_log::{Got, Line, LogReader, OCTETS_LIMIT, parse_into};
use std::alloc::Global;
use xb_domain::{Event, Outputs};
use xb_io::{Halt, Shelf, Sink};
use xb_values::Buf;

/// How a log ends that could be read.
#[derive(Drop)]
pub(crate) enum End<H> {
    /// All lines were played, on this host.
    Whole(H),
    /// The line of that number, from 1, is outside the grammar.
    BadLine(u64),
    /// The log passes its limit.
    LongLog,
}

// The clock after a line.
fn clock_after(now: u32, line: &Line<'_>) -> u32
    ensures { result ≡ line_clock now (line_view line.now) }
{
    match line {
        Line::Event(Event::Time(time)) => *time,
        _ => now,
    }
}

// Gathers a line for each output.
fn print_outputs<K: Sink>(outputs: &Outputs, page: &mut Page, sink: &mut K) -> Result<(), Halt>
    ensures { let lines = output_lines outputs.now in
        Gathers K.took K.faults sink.old sink.new page.old page.new lines result }
{
    'outputs: for i in 0..outputs.len() {
        page.output(outputs.get(i), sink)?;
    }
    Ok(())
}

// A host takes an event, and the lines of the outputs are gathered.
fn play_event<H: Host, K: Sink>(
    alloc: Global,
    host: H,
    event: Event<'_>,
    outputs: &mut Outputs,
    page: &mut Page,
    sink: &mut K,
) -> Result<H, Halt>
    requires { Fits (H.built_from host) (H.speaker host) (says (event_view event)) }
    ensures { let line = says (event_view event.entry) in
        PlaysLine H.RULE H.built_from H.speaker host line K.took K.faults sink.old sink.new page.old page.new result }
{
    outputs.clear();
    let host = host.step(alloc, event, outputs)?;
    print_outputs(outputs, page, sink)?;
    Ok(host)
}

// A host takes what a line says, and the lines of the outputs are gathered.
fn play_line<H: Host, K: Sink>(
    alloc: Global,
    host: H,
    line: Line<'_>,
    outputs: &mut Outputs,
    page: &mut Page,
    sink: &mut K,
) -> Result<H, Halt>
    requires { Fits (H.built_from host) (H.speaker host) (line_view line) }
    ensures { let line = line_view line.entry in
        PlaysLine H.RULE H.built_from H.speaker host line K.took K.faults sink.old sink.new page.old page.new result }
{
    match line {
        Line::Blank => Ok(host),
        Line::Event(event) => play_event(alloc, host, event, outputs, page, sink),
    }
}

/// Plays the lines of a log on a host, up to the first that is outside the grammar or passes the log's limit.
pub(crate) fn play_lines<H: Host, S: Shelf, K: Sink>(
    alloc: Global,
    host: H,
    peers: u32,
    shelf: &mut S,
    log: &str,
    page: &mut Page,
    sink: &mut K,
) -> Result<End<H>, Stop>
    requires peers { peers ≡ length ((H.built_from host).config).peers }
    requires clock { (H.speaker host).clock ≡ 0 }
    ensures { PlaysLines H.RULE H.built_from H.speaker host S.held S.faults K.took K.faults
        shelf.old shelf.new sink.old sink.new log.now page.old page.new result }
{
    let mut reader = LogReader::make(alloc)?;
    let mut octets = Buf::make(alloc, OCTETS_LIMIT)?;
    let mut outputs = Outputs::make(alloc)?;
    let (mut host, mut now, mut number) = (host, 0, 1);
    'lines: loop {
        match reader.next_line(shelf, log) {
            Got::Line => {}
            Got::End => return Ok(End::Whole(host)),
            Got::LineTooLong => return Ok(End::BadLine(number)),
            Got::TooLong => return Ok(End::LongLog),
            Got::Failed => return Err(Stop::ReadFault),
        }
        let Some(line) = parse_into(&mut octets, reader.line(), peers, now) else {
            return Ok(End::BadLine(number));
        };
        now = clock_after(now, &line);
        host = play_line(alloc, host, line, &mut outputs, page, sink)?;
        number += 1;
    }
}
