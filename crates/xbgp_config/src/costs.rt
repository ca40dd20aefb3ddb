//! The interior costs of next hops, at most one for each next hop.
ghost use Rattle.std.specs.Prelude.{◌≡◌, ◌<◌, ◌-◌, ◌^◌, length, map};
ghost use Rattle.toml.specs.View.{view};
ghost use Rattle.xb_fields.specs.Fields.{judged_entries};
ghost use Rattle.xb_fields.specs.Outcomes.{Gives};
ghost use Rattle.xbgp_config.specs.Configs.{cost_fields, cost_entry};

use crate::lists::{CostEntry, Costs};
use crate::texts::required_address;
use std::alloc::Global;
use std::collections::BTreeSet;
use toml::Value;
use xb_domain::{BadKind, Part};
use xb_fields::{FieldError, FieldFault, Location, required_number, table_with};

// The cost at a position from 1.
#[tactic(auto, unfolding(crate::specs::Configs::cost_fields))]
fn cost_fields(index: u32, value: &Value) -> Result<CostEntry, FieldFault>
    ensures { result ≡ cost_fields index (view value.now) }
{
    let at = Location::new(Part::Cost, index);
    let table = table_with(at, &["next_hop", "cost"], value)?;
    let next_hop = required_address(at, "next_hop", table)?;
    let cost = required_number(at, "cost", 0, u32::MAX, table)?;
    Ok(CostEntry { next_hop, cost })
}

/// Reads the costs in order. `Double` for a next hop that an earlier cost has.
pub fn read_costs(alloc: Global, values: &[Value]) -> Result<Costs, FieldError>
    requires { length values.now < 2 ^ 32 - 1 }
    ensures { Gives result (judged_entries cost_entry (map view values.now)) }
{
    let mut seen = BTreeSet::new(alloc);
    let mut items = Vec::new(alloc);
    for (i, value) in values.iter().enumerate() {
        let index = i as u32 + 1;
        let entry = cost_fields(index, value)?;
        if !seen.insert(entry.next_hop)? {
            return Err(
                Location::new(Part::Cost, index)
                    .fault(BadKind::Double)
                    .into(),
            );
        }
        items.push(entry)?;
    }
    Ok(Costs { items })
}
