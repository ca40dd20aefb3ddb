//! What follows the outputs in a report: the tables that a host's readers show, or why the log was not played to its
//! end.
ghost use Rattle.std.specs.Prelude.{◌≡◌, ◌≤◌, ◌<◌, ◌∷◌, ◌++◌, length, flat_map};
ghost use Rattle.xb_io.specs.Pages.{Gathers};
ghost use Rattle.table_print.specs.Lines.{adv_line, map_line};
ghost use Rattle.spk_model.specs.Names.{names_of};
ghost use Rattle.spk_model.specs.Readers.{IsPeer, map_entries};
ghost use Rattle.spk_model.specs.Reports.{route_lines, adv_lines, drained_lines, map_lines, fault_lines, table_lines};
ghost use Rattle.spk_model.specs.Reports.{adv_lines_of, drained_line_of, entry_lines, fault_line_of};
ghost use Rattle.spk_model.specs.Reports.{program_fault_lines};
ghost use Rattle.spk_model.specs.Ends.{IsEnd, end_text};

use crate::Host;
use crate::lines::End;
use crate::names::Names;
use crate::page::Page;
use bgp_attr::MAX_CANONICAL;
use bpf_machine::Cause;
use std::alloc::Global;
use xb_domain::Point;
use xb_io::{Halt, Sink};
use xb_values::Buf;

// The last line of a whole report.
const END_LINE: &[u8] = b"end\n";

// The line of a log that is too long.
const LONG_LOG_LINE: &[u8] = b"fault long log\n";

// The causes, in the order in which their lines are printed.
const CAUSES: [Cause; 5] = [
    Cause::Memory,
    Cause::Fuel,
    Cause::Misuse,
    Cause::BadReturn,
    Cause::BadOutput,
];

// Gathers a line for each best route.
fn print_routes<H: Host, K: Sink>(
    alloc: Global,
    host: &H,
    page: &mut Page,
    sink: &mut K,
) -> Result<(), Halt>
    ensures { let lines = route_lines (H.speaker host.now) in
        Gathers K.took K.faults sink.old sink.new page.old page.new lines result }
{
    let mut section = Buf::make(alloc, MAX_CANONICAL)?;
    let mut after = None;
    'routes: while let Some(best) = host.route_after(after, &mut section) {
        page.route(best.0, best.1, section.as_slice(), sink)?;
        after = Some(best.0);
    }
    Ok(())
}

// Gathers a line for each prefix that a peer is advertised.
fn print_advertised<H: Host, K: Sink>(
    host: &H,
    peer: u32,
    section: &mut Buf,
    page: &mut Page,
    sink: &mut K,
) -> Result<(), Halt>
    requires room { MAX_CANONICAL ≤ section.old.capacity }
    requires peer { IsPeer (H.built_from host.now) peer }
    ensures room { section.new.capacity ≡ section.old.capacity }
    ensures lines { let lines = adv_lines_of (H.speaker host.now) peer in
        Gathers K.took K.faults sink.old sink.new page.old page.new lines result }
{
    let mut after = None;
    'prefixes: while let Some(prefix) = host.adv_after(peer, after, section) {
        page.adv(peer, prefix, section.as_slice(), sink)?;
        after = Some(prefix);
    }
    Ok(())
}

// Gathers a line for each prefix that some peer is advertised.
fn print_all_advertised<H: Host, K: Sink>(
    alloc: Global,
    host: &H,
    peers: u32,
    page: &mut Page,
    sink: &mut K,
) -> Result<(), Halt>
    requires { peers ≡ length ((H.built_from host.now).config).peers }
    ensures { let lines = adv_lines (H.built_from host.now) (H.speaker host.now) in
        Gathers K.took K.faults sink.old sink.new page.old page.new lines result }
{
    let mut section = Buf::make(alloc, MAX_CANONICAL)?;
    'peers: for i in 0..peers {
        print_advertised(host, i + 1, &mut section, page, sink)?;
    }
    Ok(())
}

// Gathers the line of a peer, if it is drained.
#[tactic(auto, using(crate::proofs::GatherLemmas::gathered_nothing))]
fn print_drained_peer<H: Host, K: Sink>(
    host: &H,
    peer: u32,
    page: &mut Page,
    sink: &mut K,
) -> Result<(), Halt>
    requires { IsPeer (H.built_from host.now) peer }
    ensures { let line = drained_line_of (H.speaker host.now) peer in
        Gathers K.took K.faults sink.old sink.new page.old page.new line result }
{
    if host.drained(peer) {
        page.drained(peer, sink)
    } else {
        Ok(())
    }
}

// Gathers a line for each peer that is drained.
fn print_drained<H: Host, K: Sink>(
    host: &H,
    peers: u32,
    page: &mut Page,
    sink: &mut K,
) -> Result<(), Halt>
    requires { peers ≡ length ((H.built_from host.now).config).peers }
    ensures { let lines = drained_lines (H.built_from host.now) (H.speaker host.now) in
        Gathers K.took K.faults sink.old sink.new page.old page.new lines result }
{
    'peers: for i in 0..peers {
        print_drained_peer(host, i + 1, page, sink)?;
    }
    Ok(())
}

// Gathers a line for each entry of a map.
fn print_entries<H: Host, K: Sink>(
    host: &H,
    map: u32,
    name: &str,
    page: &mut Page,
    sink: &mut K,
) -> Result<(), Halt>
    requires { map < length ((H.built_from host.now).manifest).maps }
    ensures { let lines = entry_lines name.now (map_entries (H.speaker host.now) map) in
        Gathers K.took K.faults sink.old sink.new page.old page.new lines result }
{
    let mut after = None;
    'entries: while let Some((key, value)) = host.map_after(map, after) {
        page.entry(name, key, value, sink)?;
        after = Some(key);
    }
    Ok(())
}

// Gathers a line for each entry of each map.
fn print_maps<H: Host, K: Sink>(
    host: &H,
    names: &Names,
    page: &mut Page,
    sink: &mut K,
) -> Result<(), Halt>
    requires { names.now ≡ names_of (H.built_from host.now).manifest }
    ensures { let lines = map_lines (H.built_from host.now).manifest (H.speaker host.now) in
        Gathers K.took K.faults sink.old sink.new page.old page.new lines result }
{
    'maps: for i in 0..names.maps() {
        print_entries(host, i as u32, names.map(i), page, sink)?;
    }
    Ok(())
}

// Gathers the line of a fault of a program, if it was noted.
#[tactic(auto, using(crate::proofs::GatherLemmas::gathered_nothing))]
fn print_fault<H: Host, K: Sink>(
    host: &H,
    program: u32,
    name: &str,
    point: Point,
    cause: Cause,
    page: &mut Page,
    sink: &mut K,
) -> Result<(), Halt>
    requires { program < length ((H.built_from host.now).manifest).programs }
    ensures { let line = fault_line_of (H.speaker host.now) program name.now point cause in
        Gathers K.took K.faults sink.old sink.new page.old page.new line result }
{
    if host.fault_noted(program, cause) {
        page.fault(name, point, cause, sink)
    } else {
        Ok(())
    }
}

// Gathers a line for each fault of a program that was noted.
fn print_program_faults<H: Host, K: Sink>(
    host: &H,
    program: u32,
    name: &str,
    point: Point,
    page: &mut Page,
    sink: &mut K,
) -> Result<(), Halt>
    requires { program < length ((H.built_from host.now).manifest).programs }
    ensures { let lines = program_fault_lines (H.speaker host.now) program name.now point in
        Gathers K.took K.faults sink.old sink.new page.old page.new lines result }
{
    'causes: for cause in &CAUSES {
        print_fault(host, program, name, point, *cause, page, sink)?;
    }
    Ok(())
}

// Gathers a line for each fault that was noted.
fn print_faults<H: Host, K: Sink>(
    host: &H,
    names: &Names,
    page: &mut Page,
    sink: &mut K,
) -> Result<(), Halt>
    requires { names.now ≡ names_of (H.built_from host.now).manifest }
    ensures { let lines = fault_lines (H.built_from host.now).manifest (H.speaker host.now) in
        Gathers K.took K.faults sink.old sink.new page.old page.new lines result }
{
    'programs: for i in 0..names.programs() {
        let (name, point) = names.program(i);
        print_program_faults(host, i as u32, name, point, page, sink)?;
    }
    Ok(())
}

// Gathers the tables.
fn print_tables<H: Host, K: Sink>(
    alloc: Global,
    host: &H,
    names: &Names,
    peers: u32,
    page: &mut Page,
    sink: &mut K,
) -> Result<(), Halt>
    requires names { names.now ≡ names_of (H.built_from host.now).manifest }
    requires peers { peers ≡ length ((H.built_from host.now).config).peers }
    ensures { let lines = table_lines (H.built_from host.now) (H.speaker host.now) in
        Gathers K.took K.faults sink.old sink.new page.old page.new lines result }
{
    print_routes(alloc, host, page, sink)?;
    print_all_advertised(alloc, host, peers, page, sink)?;
    print_drained(host, peers, page, sink)?;
    print_maps(host, names, page, sink)?;
    print_faults(host, names, page, sink)
}

/// Gathers what follows the outputs: the tables and the last line after a whole log, else the line that says how the
/// log is wrong.
pub(crate) fn print_end<H: Host, K: Sink>(
    alloc: Global,
    end: &End<H>,
    names: &Names,
    peers: u32,
    page: &mut Page,
    sink: &mut K,
) -> Result<(), Halt>
    requires { IsEnd H.built_from names.now peers end.now }
    ensures { let text = end_text H.built_from H.speaker end.now in
        Gathers K.took K.faults sink.old sink.new page.old page.new text result }
{
    match end {
        End::Whole(host) => {
            print_tables(alloc, host, names, peers, page, sink)?;
            page.text(END_LINE, sink)
        }
        End::BadLine(number) => page.bad_log(*number, sink),
        End::LongLog => page.text(LONG_LOG_LINE, sink),
    }
}
