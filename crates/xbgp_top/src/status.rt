//! How a run ended: a status, the number with which the process ends, and the status that each error becomes.
ghost use Rattle.std.specs.Prelude.{◌≡◌};
ghost use Rattle.xbgp_top.specs.Statuses.{config_status, load_status, manifest_status, played_status, status_code};
ghost use Rattle.xbgp_top.specs.declared.status.Status.TheVariants.{OutOfMemory};

use bpf_insn::{LoadError, LoadFault};
use spk_model::Played;
use std::alloc::AllocError;
use xbgp_config::{ConfigError, ConfigFault};
use xbgp_manifest::{ManifestError, ManifestFault};

/// An input that has a limit.
#[derive(Clone, Copy, Debug, PartialEq, Eq)]
pub enum File {
    Input,
    Config,
    Manifest,
    Log,
}

/// How a run ended.
///
/// - `Done`: the inputs were read to their ends, and the whole text was written.
/// - `Usage`: the words are no command.
/// - `ReadFault`: an input could not be read.
/// - `WriteFault`: the text could not be written; a front of it was.
/// - `BadConfig`: the configuration is refused.
/// - `BadManifest`: the manifest is refused.
/// - `BadLog`: the log is refused at the line of that number, from 1; the events before it were replayed.
/// - `OutOfMemory`: there was no memory; a front of the text may have been written.
/// - `TooLong`: an input has more octets than its limit.
/// - `BadStream`: the stream is refused at that offset.
/// - `BadCode`: the bytecode is refused by the loader.
#[derive(Clone, Copy, Debug, PartialEq, Eq)]
pub enum Status {
    Done,
    Usage,
    ReadFault,
    WriteFault,
    BadConfig(ConfigFault),
    BadManifest(ManifestFault),
    BadLog(u64),
    OutOfMemory,
    TooLong(File),
    BadStream(u64),
    BadCode(LoadFault),
}

impl Status {
    /// The number with which the process ends.
    pub fn code(&self) -> u8
        ensures { result ≡ status_code self.now }
    {
        match self {
            Status::Done => 0,
            Status::Usage => 2,
            Status::ReadFault => 3,
            Status::WriteFault => 4,
            Status::BadConfig(_) => 5,
            Status::BadManifest(_) => 6,
            Status::BadLog(_) => 7,
            Status::OutOfMemory => 8,
            Status::TooLong(_) => 9,
            Status::BadStream(_) => 10,
            Status::BadCode(_) => 11,
        }
    }
}

impl From<AllocError> for Status {
    ghost from_gives = { λ _ s. s ≡ OutOfMemory };

    fn from(_error: AllocError) -> Status {
        Status::OutOfMemory
    }
}

impl From<ConfigError> for Status {
    ghost from_gives = { λ e s. s ≡ config_status e };

    fn from(error: ConfigError) -> Status {
        match error {
            ConfigError::OutOfMemory => Status::OutOfMemory,
            ConfigError::Bad(fault) => Status::BadConfig(fault),
        }
    }
}

impl From<ManifestError> for Status {
    ghost from_gives = { λ e s. s ≡ manifest_status e };

    fn from(error: ManifestError) -> Status {
        match error {
            ManifestError::OutOfMemory => Status::OutOfMemory,
            ManifestError::Bad(fault) => Status::BadManifest(fault),
        }
    }
}

impl From<LoadError> for Status {
    ghost from_gives = { λ e s. s ≡ load_status e };

    fn from(error: LoadError) -> Status {
        match error {
            LoadError::OutOfMemory => Status::OutOfMemory,
            LoadError::Bad(fault) => Status::BadCode(fault),
        }
    }
}

impl From<Played> for Status {
    ghost from_gives = { λ p s. s ≡ played_status p };

    fn from(played: Played) -> Status {
        match played {
            Played::Done => Status::Done,
            Played::ReadFault => Status::ReadFault,
            Played::WriteFault => Status::WriteFault,
            Played::BadLog(line) => Status::BadLog(line),
            Played::TooLong => Status::TooLong(File::Log),
            Played::OutOfMemory => Status::OutOfMemory,
        }
    }
}
