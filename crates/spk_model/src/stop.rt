//! Why the replay of a log ends before its report is written.
ghost use Rattle.std.specs.Prelude.{◌≡◌};
ghost use Rattle.spk_model.specs.Ends.{stop_of, played_by_stop};

use crate::Played;
use std::alloc::AllocError;
use xb_io::Halt;

/// Why a report is not written to its end: the shelf failed, the sink failed, or want of memory.
#[derive(Clone, Copy, Debug, PartialEq, Eq)]
pub(crate) enum Stop {
    ReadFault,
    WriteFault,
    OutOfMemory,
}

impl From<Halt> for Stop {
    ghost use Rattle.std.specs.Prelude.{◌≡◌};
    ghost use Rattle.spk_model.specs.Ends.{stop_of};

    ghost from_gives = { λ halt stop. stop ≡ stop_of halt };

    fn from(halt: Halt) -> Stop {
        match halt {
            Halt::WriteFault => Stop::WriteFault,
            Halt::OutOfMemory => Stop::OutOfMemory,
        }
    }
}

impl From<AllocError> for Stop {
    ghost use Rattle.std.specs.Prelude.{◌≡◌};
    ghost use Rattle.spk_model.specs.declared.stop.Stop.TheVariants.{OutOfMemory};

    ghost from_gives = { λ _ stop. stop ≡ OutOfMemory };

    fn from(_error: AllocError) -> Stop {
        Stop::OutOfMemory
    }
}

impl Stop {
    /// How the replay ends.
    pub(crate) fn played(self) -> Played
        ensures { result ≡ played_by_stop self }
    {
        match self {
            Stop::ReadFault => Played::ReadFault,
            Stop::WriteFault => Played::WriteFault,
            Stop::OutOfMemory => Played::OutOfMemory,
        }
    }
}
