//! The command `replay both`: a log is played through one speaker and then through the other, for their reports to be
//! compared.
//!
//! The configuration and the manifest are read once, and judged before anything is written. A speaker takes its setup
//! for its own, so the texts are kept, and the second setup is made from them.
ghost use Rattle.std.specs.Prelude.{◌≡◌, ◌≢◌, Ok, IfOk};
ghost use Rattle.xb_io.specs.Causes.{Files};
ghost use Rattle.xbgp_top.specs.Answers.{both_replays, hosts_answer, manifest_input, setup_input, titled_replay};
ghost use Rattle.xbgp_top.specs.Inputs.{Gives, Obtains};
ghost use Rattle.xbgp_top.specs.Kept.{manifest_of, manifest_view, option_octets, setup_of, setup_view};
ghost use Rattle.xbgp_top.specs.Top.{Explains, WasDone};
ghost use Rattle.xbgp_top.specs.declared.command.Hosts.TheVariants.{Both};

use crate::check::is_none;
use crate::input::read_input;
use crate::output::{refuse, write_all};
use crate::{File, Status};
use host_interned::Interned;
use host_listed::Listed;
use spk_model::{Host, Setup, replay};
use std::alloc::Global;
use xb_io::{Shelf, Sink};
use xbgp_config::read_config;
use xbgp_manifest::{Manifest, read_manifest};

const INTERNED_LINE: &[u8] = b"host interned\n";

const LISTED_LINE: &[u8] = b"host listed\n";

/// What a speaker is made of, with the texts that say so.
struct Kept {
    setup: Setup,
    config: Vec<u8>,
    /// None if there is no manifest.
    manifest: Option<Vec<u8>>,
}

// Reads and judges a manifest, and keeps its text.
fn kept_manifest<S: Shelf>(
    alloc: Global,
    name: &str,
    shelf: &mut S,
) -> Result<(Manifest, Option<Vec<u8>>), Status>
    ensures obtains { Obtains S.held S.faults shelf.old shelf.new (manifest_input name.now) (manifest_view result) }
    ensures kept { IfOk result (λ r. manifest_of (option_octets r.1) ≡ Ok r.0) }
{
    if is_none(name) {
        return Ok((Manifest::none(alloc)?, None));
    }
    let text = read_input(alloc, File::Manifest, name, shelf)?;
    let manifest = read_manifest(alloc, &text)?;
    Ok((manifest, Some(text)))
}

// Reads and judges what a speaker is made of, and keeps the texts.
fn kept_setup<S: Shelf>(
    alloc: Global,
    config: &str,
    manifest: &str,
    shelf: &mut S,
) -> Result<Kept, Status>
    ensures obtains { let want = setup_input config.now manifest.now in
        Obtains S.held S.faults shelf.old shelf.new want (setup_view result) }
    ensures kept { IfOk result (λ k. setup_of k.config.items (option_octets k.manifest) ≡ Ok k.setup) }
{
    let text = read_input(alloc, File::Config, config, shelf)?;
    let config = read_config(alloc, &text)?;
    let (manifest, manifest_text) = kept_manifest(alloc, manifest, shelf)?;
    Ok(Kept {
        setup: Setup { config, manifest },
        config: text,
        manifest: manifest_text,
    })
}

// Judges the text of a manifest, if there is one.
fn manifest_in(alloc: Global, text: &Option<Vec<u8>>) -> Result<Manifest, Status>
    ensures { Gives (manifest_of (option_octets text.now)) result }
{
    match text {
        None => Ok(Manifest::none(alloc)?),
        Some(text) => Ok(read_manifest(alloc, text)?),
    }
}

// Judges texts, and makes of them what a speaker is made of.
fn setup_in(alloc: Global, config: &[u8], manifest: &Option<Vec<u8>>) -> Result<Setup, Status>
    ensures { Gives (setup_of config.now (option_octets manifest.now)) result }
{
    let config = read_config(alloc, config)?;
    let manifest = manifest_in(alloc, manifest)?;
    Ok(Setup { config, manifest })
}

// Writes a line, and then the report of a speaker of the kind `H`.
fn replay_titled<H: Host, S: Shelf, K: Sink>(
    alloc: Global,
    title: &[u8],
    setup: Setup,
    log: &str,
    shelf: &mut S,
    sink: &mut K,
) -> Status
    ensures explains { let told = titled_replay title.now H.RULE setup log.now in
        Explains S.held S.faults K.took K.faults shelf.old shelf.new sink.old sink.new told result }
    ensures done { let told = titled_replay title.now H.RULE setup log.now in
        result ≡ Status.Done → WasDone (S.held shelf.old) (K.took sink.old) (K.took sink.new) told }
    ensures command { result ≢ Status.Usage }
    ensures same { S.held shelf.new ≡ S.held shelf.old }
{
    match write_all(sink, title, Status::Done) {
        Status::Done => Status::from(replay::<H, S, K>(alloc, setup, shelf, log, sink)),
        status => status,
    }
}

// Writes the reports of both speakers. It ends with the first that isn't Done.
fn replay_each<S: Shelf, K: Sink>(
    alloc: Global,
    kept: Kept,
    log: &str,
    shelf: &mut S,
    sink: &mut K,
) -> Status
    requires kept { setup_of kept.config.items (option_octets kept.manifest) ≡ Ok kept.setup }
    ensures explains { let told = both_replays kept.setup log.now in
        Explains S.held S.faults K.took K.faults shelf.old shelf.new sink.old sink.new told result }
    ensures command { result ≢ Status.Usage }
{
    let Kept {
        setup,
        config,
        manifest,
    } = kept;
    match replay_titled::<Interned, S, K>(alloc, INTERNED_LINE, setup, log, shelf, sink) {
        Status::Done => match setup_in(alloc, &config, &manifest) {
            Ok(setup) => {
                replay_titled::<Listed, S, K>(alloc, LISTED_LINE, setup, log, shelf, sink)
            }
            Err(status) => status,
        },
        status => status,
    }
}

/// Replays a log on both speakers, one after the other, and writes each report after its speaker's name, or why there
/// is none.
pub(crate) fn replay_both<S: Shelf, K: Sink>(
    alloc: Global,
    config: &str,
    manifest: &str,
    log: &str,
    shelf: &mut S,
    sink: &mut K,
) -> Status
    ensures explains { let setup = setup_input config.now manifest.now in
        Explains S.held S.faults K.took K.faults shelf.old shelf.new sink.old sink.new
        (λ (files : Files). hosts_answer Both (setup files) log.now files) result }
    ensures command { result ≢ Status.Usage }
{
    match kept_setup(alloc, config, manifest, shelf) {
        Ok(kept) => replay_each(alloc, kept, log, shelf, sink),
        Err(status) => refuse(alloc, status, sink),
    }
}
