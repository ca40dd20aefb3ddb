//! The command `check`: a configuration and a manifest are read and judged, and what they have is counted.
//!
//! The configuration comes first: the manifest is read only after it is accepted. A status that ends a step ends the
//! command, as the definition `check_outcome` says.
ghost use Rattle.std.specs.Prelude.{◌≡◌, ◌+◌, ◌≤◌, ◌++◌, length, codes, IfOk};
ghost use Rattle.std.specs.Str.{bytes_eq};
ghost use Rattle.xbgp_top.specs.Answers.{check_outcome, config_input, counts, manifest_input};
ghost use Rattle.xbgp_top.specs.Inputs.{Obtains};
ghost use Rattle.xbgp_top.specs.Summaries.{count_line};
ghost use Rattle.xbgp_top.specs.Views.{text_view};

use crate::input::read_input;
use crate::{File, Status};
use std::alloc::{AllocError, Global};
use xb_io::Shelf;
use xb_values::{Buf, append_decimal};
use xbgp_config::{Config, read_config};
use xbgp_manifest::{Manifest, read_manifest};

// Room for four lines of a word and a count, and the last line.
const COUNTS_ROOM: usize = 160;

/// Reads and judges a configuration.
pub(crate) fn config_named<S: Shelf>(
    alloc: Global,
    name: &str,
    shelf: &mut S,
) -> Result<Config, Status>
    ensures { Obtains S.held S.faults shelf.old shelf.new (config_input name.now) result }
{
    let text = read_input(alloc, File::Config, name, shelf)?;
    Ok(read_config(alloc, &text)?)
}

/// Whether a name means that there is no manifest.
pub(crate) fn is_none(name: &str) -> bool
    ensures { result ≡ bytes_eq name.now (codes "-") }
{
    name == "-"
}

/// Reads and judges a manifest; `-` means none, and nothing is read.
pub(crate) fn manifest_named<S: Shelf>(
    alloc: Global,
    name: &str,
    shelf: &mut S,
) -> Result<Manifest, Status>
    ensures { Obtains S.held S.faults shelf.old shelf.new (manifest_input name.now) result }
{
    if is_none(name) {
        return Ok(Manifest::none(alloc)?);
    }
    let text = read_input(alloc, File::Manifest, name, shelf)?;
    Ok(read_manifest(alloc, &text)?)
}

/// Appends a word and a count.
pub(crate) fn append_count(text: &mut Buf, word: &[u8], count: u64)
    requires room { length text.old.octets + 32 ≤ text.old.capacity }
    requires short { length word.now ≤ 8 }
    ensures line { text.new ≡ record text.old { octets = text.old.octets ++ count_line word.now count } }
    ensures grown { length text.new.octets ≤ length text.old.octets + 30 }
{
    text.append(word);
    text.append(b" ");
    append_decimal(text, count);
    text.append(b"\n");
}

// The lines of the counts.
fn count_lines(alloc: Global, config: &Config, manifest: &Manifest) -> Result<Buf, AllocError>
    ensures { IfOk result (λ text. text.octets ≡ counts config.now manifest.now) }
{
    let mut text = Buf::make(alloc, COUNTS_ROOM)?;
    append_count(&mut text, b"peers", config.peers.len() as u64);
    append_count(&mut text, b"networks", config.networks.len() as u64);
    append_count(&mut text, b"maps", manifest.maps.len() as u64);
    append_count(&mut text, b"programs", manifest.programs.len() as u64);
    text.append(b"end\n");
    Ok(text)
}

/// Reads a configuration and a manifest, and returns the lines that count what they have.
pub(crate) fn check<S: Shelf>(
    alloc: Global,
    config: &str,
    manifest: &str,
    shelf: &mut S,
) -> Result<Buf, Status>
    ensures { Obtains S.held S.faults shelf.old shelf.new (check_outcome config.now manifest.now) (text_view result) }
{
    let config = config_named(alloc, config, shelf)?;
    let manifest = manifest_named(alloc, manifest, shelf)?;
    Ok(count_lines(alloc, &config, &manifest)?)
}
