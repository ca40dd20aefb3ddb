//! The networks that the speaker originates, each once.
ghost use Rattle.std.specs.Prelude.{◌≡◌, ◌<◌, ◌-◌, ◌^◌, length, map};
ghost use Rattle.toml.specs.View.{view};
ghost use Rattle.xb_values.specs.Readers.{read_prefix};
ghost use Rattle.xb_fields.specs.Fields.{text, judged_entries};
ghost use Rattle.xb_fields.specs.Outcomes.{Gives};
ghost use Rattle.xbgp_config.specs.Configs.{network_entry};

use crate::lists::Networks;
use std::alloc::Global;
use std::collections::BTreeSet;
use toml::Value;
use xb_domain::{BadKind, Part};
use xb_fields::{FieldError, FieldFault, Location, text};
use xb_values::{Prefix, read_prefix};

// The prefix that a text says; its host bits are cleared.
fn network(at: Location, value: &Value) -> Result<Prefix, FieldFault>
    ensures { result ≡ text at read_prefix (view value.now) }
{
    let written = text(at, value)?;
    read_prefix(written.as_bytes()).ok_or(at.fault(BadKind::Range))
}

/// Reads the networks in order. `Double` for a network that an earlier one equals.
pub fn read_networks(alloc: Global, values: &[Value]) -> Result<Networks, FieldError>
    requires { length values.now < 2 ^ 32 - 1 }
    ensures { Gives result (judged_entries network_entry (map view values.now)) }
{
    let mut seen = BTreeSet::new(alloc);
    let mut items = Vec::new(alloc);
    for (i, value) in values.iter().enumerate() {
        let at = Location::new(Part::Network, i as u32 + 1);
        let prefix = network(at, value)?;
        if !seen.insert(prefix)? {
            return Err(at.fault(BadKind::Double).into());
        }
        items.push(prefix)?;
    }
    Ok(Networks { items })
}
