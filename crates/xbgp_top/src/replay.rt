//! The command `replay`: a log is played through a speaker, and its report is written.
//!
//! The configuration and the manifest are read and judged first, in this order. What a log gives, and the writing of
//! it, is `spk_model`'s.
ghost use Rattle.std.specs.Prelude.{◌≢◌};
ghost use Rattle.xb_io.specs.Causes.{Files};
ghost use Rattle.xbgp_top.specs.Answers.{replay_answer, setup_input};
ghost use Rattle.xbgp_top.specs.Inputs.{Obtains};
ghost use Rattle.xbgp_top.specs.Top.{Explains};

use crate::Status;
use crate::check::{config_named, manifest_named};
use crate::output::refuse;
use spk_model::{Host, Setup, replay};
use std::alloc::Global;
use xb_io::{Shelf, Sink};

// Reads what a speaker is made of.
fn setup_named<S: Shelf>(
    alloc: Global,
    config: &str,
    manifest: &str,
    shelf: &mut S,
) -> Result<Setup, Status>
    ensures { Obtains S.held S.faults shelf.old shelf.new (setup_input config.now manifest.now) result }
{
    let config = config_named(alloc, config, shelf)?;
    let manifest = manifest_named(alloc, manifest, shelf)?;
    Ok(Setup { config, manifest })
}

/// Replays a log on a speaker of the kind `H`, and writes the report or why there is none.
pub(crate) fn replay_on<H: Host, S: Shelf, K: Sink>(
    alloc: Global,
    config: &str,
    manifest: &str,
    log: &str,
    shelf: &mut S,
    sink: &mut K,
) -> Status
    ensures explains { let setup = setup_input config.now manifest.now in
        Explains S.held S.faults K.took K.faults shelf.old shelf.new sink.old sink.new
        (λ (files : Files). replay_answer H.RULE (setup files) log.now files) result }
    ensures command { result ≢ Status.Usage }
{
    match setup_named(alloc, config, manifest, shelf) {
        Ok(setup) => Status::from(replay::<H, S, K>(alloc, setup, shelf, log, sink)),
        Err(status) => refuse(alloc, status, sink),
    }
}
