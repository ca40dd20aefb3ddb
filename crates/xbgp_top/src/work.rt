//! The command `work`: events are generated from a number, a speaker takes them, and what came of it is counted.
//!
//! No file is read. An event is written into one buffer and its outputs into one list, which are used again for the
//! next event, so that memory grows with the speaker's tables alone. The octets that each peer is sent are counted as
//! the events are played; routes and advertised prefixes are counted at the end, by the speaker's readers.
ghost use Rattle.std.specs.Prelude.{◌≡◌, ◌+◌, ◌*◌, ◌≤◌, ◌<◌, ◌^◌, ◌++◌, length, drop, Ok, IfOk, OnOk, All};
ghost use Rattle.std.specs.List.{slice_index_or};
ghost use Rattle.xb_domain.specs.Views.{output_view};
ghost use Rattle.xbgp_config.specs.WorkConfig.{work_peers};
ghost use Rattle.spk_model.specs.Readers.{IsPeer};
ghost use Rattle.spk_model.specs.Reports.{end_line};
ghost use Rattle.spk_model.specs.Routing.{tables_of};
ghost use Rattle.spk_model.specs.Turning.{history};
ghost use Rattle.xbgp_top.specs.Inputs.{Gives};
ghost use Rattle.xbgp_top.specs.Summaries.{capped, counted, counted_all, shown_peer_line, shown_summary};
ghost use Rattle.xbgp_top.specs.Summaries.{work_setup, work_text};
ghost use Rattle.xbgp_top.specs.Views.{text_view};

use crate::Status;
use crate::check::append_count;
use bgp_attr::MAX_CANONICAL;
use spk_model::{Host, Setup};
use std::alloc::{AllocError, Global};
use work_gen::{Work, next_into};
use xb_domain::{Output, Outputs};
use xb_values::{Buf, append_decimal};
use xb_wire::numbers::MAX_MESSAGE;
use xbgp_config::{Config, WORK_PEERS};
use xbgp_manifest::Manifest;

// A count for each peer's number; 0 is no peer's.
const NUMBERS: usize = 5;

// Room for the line of a peer: a word, three numbers of at most 20 digits, three spaces and the line's end.
const PEER_ROOM: usize = 68;

// Room for two lines of a word and a count, four lines of peers, and the last line.
const SUMMARY_ROOM: usize = 384;

// Counts the octets that an output sends to a peer. A count stays at its type's end.
fn count_output(counts: &mut [u64], output: Output<'_>)
    ensures { counts.new ≡ counted counts.old (output_view output.entry) }
{
    if let Output::Sent(peer, octets) = output {
        let peer = peer as usize;
        if peer < counts.len() {
            counts[peer] = counts[peer].saturating_add(octets.len() as u64);
        }
    }
}

// Counts the octets that outputs send to each peer.
fn count_outputs(counts: &mut [u64], outputs: &Outputs)
    ensures { counts.new ≡ counted_all counts.old outputs.now }
{
    'outputs: for i in 0..outputs.len() {
        count_output(counts, outputs.get(i));
    }
}

// A speaker takes all events, and the octets that each peer is sent are counted.
fn play_all<H: Host>(
    alloc: Global,
    host: H,
    work: Work,
    counts: &mut [u64],
) -> Result<H, AllocError>
    requires { H.built_from host ≡ work_setup }
    ensures setup { IfOk result (λ h. H.built_from h ≡ work_setup) }
    ensures speaker { let all = history H.RULE work_setup (H.speaker host) work in
        IfOk result (λ h. H.speaker h ≡ all.speaker) }
    ensures counts { let all = history H.RULE work_setup (H.speaker host) work in
        OnOk result (counts.new ≡ counted_all counts.old all.outputs) }
{
    let mut octets = Buf::make(alloc, MAX_MESSAGE)?;
    let mut outputs = Outputs::make(alloc)?;
    let (mut host, mut work) = (host, work);
    'events: while let Some(event) = next_into(&mut octets, &mut work) {
        outputs.clear();
        host = host.step(alloc, event, &mut outputs)?;
        count_outputs(counts, &outputs);
    }
    Ok(host)
}

// How many best routes there are. The count stays at its type's end.
fn count_routes<H: Host>(host: &H, section: &mut Buf) -> u64
    requires { MAX_CANONICAL ≤ section.old.capacity }
    ensures count { result ≡ capped (length ((H.speaker host.now).routing).best) }
    ensures room { MAX_CANONICAL ≤ section.new.capacity }
{
    let mut count: u64 = 0;
    let mut after = None;
    'routes: while let Some(best) = host.route_after(after, section) {
        count = count.saturating_add(1);
        after = Some(best.0);
    }
    count
}

// How many prefixes a peer is advertised. The count stays at its type's end.
fn count_advertised<H: Host>(host: &H, peer: u32, section: &mut Buf) -> u64
    requires room { MAX_CANONICAL ≤ section.old.capacity }
    requires peer { IsPeer (H.built_from host.now) peer }
    ensures count { result ≡ capped (length (tables_of (H.speaker host.now).routing peer).adv) }
    ensures room { MAX_CANONICAL ≤ section.new.capacity }
{
    let mut count: u64 = 0;
    let mut after = None;
    'prefixes: while let Some(prefix) = host.adv_after(peer, after, section) {
        count = count.saturating_add(1);
        after = Some(prefix);
    }
    count
}

// Appends the line of a peer.
fn append_peer(text: &mut Buf, peer: u32, advertised: u64, octets: u64)
    requires { length text.old.octets + PEER_ROOM ≤ text.old.capacity }
    ensures line { text.new
        ≡ record text.old { octets = text.old.octets ++ shown_peer_line peer advertised octets } }
    ensures grown { length text.new.octets ≤ length text.old.octets + PEER_ROOM }
{
    text.append(b"peer ");
    append_decimal(text, u64::from(peer));
    text.append(b" ");
    append_decimal(text, advertised);
    text.append(b" ");
    append_decimal(text, octets);
    text.append(b"\n");
}

// The lines of the summary of a count of updates.
fn summary_lines<H: Host>(
    alloc: Global,
    host: &H,
    count: u32,
    counts: &[u64],
) -> Result<Buf, AllocError>
    requires setup { H.built_from host.now ≡ work_setup }
    requires counts { length counts.now ≡ NUMBERS }
    ensures { IfOk result (λ text. text.octets ≡ shown_summary count (H.speaker host.now) counts.now) }
{
    let mut section = Buf::make(alloc, MAX_CANONICAL)?;
    let mut text = Buf::make(alloc, SUMMARY_ROOM)?;
    append_count(&mut text, b"updates", u64::from(count));
    let routes = count_routes(host, &mut section);
    append_count(&mut text, b"routes", routes);
    'peers: for i in 0..WORK_PEERS {
        let peer = i + 1;
        let advertised = count_advertised(host, peer, &mut section);
        append_peer(&mut text, peer, advertised, counts[peer as usize]);
    }
    text.append(b"end\n");
    Ok(text)
}

// What the speaker is made of.
fn work_setup(alloc: Global) -> Result<Setup, AllocError>
    ensures { IfOk result (λ setup. setup ≡ work_setup) }
{
    Ok(Setup {
        config: Config::for_work(alloc)?,
        manifest: Manifest::none(alloc)?,
    })
}

/// Generates events from a number, with a count of updates, has a speaker of the kind `H` take them, and returns the
/// lines that say what came of them.
pub(crate) fn work_on<H: Host>(alloc: Global, number: u64, count: u32) -> Result<Buf, Status>
    ensures { Gives (Ok (work_text H.RULE number count)) (text_view result) }
{
    let host = H::make(alloc, work_setup(alloc)?)?;
    let mut counts = [0; NUMBERS];
    let host = play_all(alloc, host, Work::new(number, count), &mut counts)?;
    Ok(summary_lines(alloc, &host, count, &counts)?)
}
