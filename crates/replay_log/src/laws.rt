//! Laws of the definitions. Each is the contract of a function that does nothing.
ghost use Rattle.std.specs.Prelude.{◌≡◌, ℕ, List, Some};
ghost use Rattle.xb_domain.specs.Events.{Event};
ghost use Rattle.replay_log.specs.Lines.{line_of, says, IsFor};
ghost use Rattle.replay_log.specs.Logs.{log_at};
ghost use Rattle.replay_log.specs.Readings.{next_at, log_by};

/// From any line on, what a log says is what that line says, and then the log after it. So the lines that a reader
/// gives, each parsed in turn, are the log.
pub fn line_by_line()
    ensures { (peers n now at : ℕ) (text : List ℕ)
        → log_at peers text at n now ≡ log_by peers text n now (next_at text at) }
{}

/// An event of a line names one of the peers that the line was read for, and does not set the clock back.
pub fn events_fit()
    ensures { (peers now : ℕ) (line : List ℕ) (event : Event)
        → line_of peers now line ≡ Some (says event) → IsFor peers now event }
{}
