//! The configuration that a text says, from its table: the keys of the whole text, the speaker, peers, costs.
ghost use Rattle.std.specs.Prelude.{◌≡◌, Ok, Err, IfOk, IsErrOf};
ghost use Rattle.toml.specs.View.{table_view};
ghost use Rattle.xb_domain.specs.declared.bad.BadKind.TheVariants.{Key};
ghost use Rattle.xb_domain.specs.declared.bad.Part.TheVariants.{Top};
ghost use Rattle.xb_fields.specs.Fields.{must, location, keys_listed};
ghost use Rattle.xb_fields.specs.Outcomes.{Gives};
ghost use Rattle.xbgp_config.specs.Configs.{config, config_of, config_keys, IsConfig};

use crate::costs::read_costs;
use crate::limits::{MAX_COSTS, MAX_PEERS};
use crate::lists::{Costs, Networks, Peers};
use crate::peers::read_peers;
use crate::speaker::read_speaker;
use std::alloc::Global;
use std::marker::Model;
use toml::Table;
use xb_domain::{BadKind, Side};
use xb_fields::{
    FieldError, FieldFault, Location, keys_listed, optional_list, read_document, required,
};

/// An accepted configuration: `local` is the speaker as a side, `hold` its hold time in seconds, 0 for none, and
/// `local_pref` the degree of preference of routes from external peers and of its own networks.
#[derive(Drop)]
pub struct Config {
    pub local: Side,
    pub hold: u16,
    pub local_pref: u32,
    pub networks: Networks,
    pub peers: Peers,
    pub costs: Costs,
}

impl Model for Config {
    ghost use Rattle.xbgp_config.specs.Configs.{Config, IsConfig};

    ghost Value = { Config };

    ghost view = { λ c. record {
      local = c.local;
      hold = c.hold;
      local_pref = c.local_pref;
      networks = c.networks;
      peers = c.peers;
      costs = c.costs;
    } };

    ghost invariant = { λ c. IsConfig (record {
      local = c.local;
      hold = c.hold;
      local_pref = c.local_pref;
      networks = c.networks;
      peers = c.peers;
      costs = c.costs;
    }) };
}

// Each key of the whole text is known.
fn check_keys(table: &Table) -> Result<(), FieldFault>
    ensures { result ≡ must (location Top 0) Key (keys_listed config_keys (table_view table.now)) }
{
    if keys_listed(&["speaker", "peer", "cost"], table) {
        Ok(())
    } else {
        Err(Location::TOP.fault(BadKind::Key))
    }
}

// The configuration that a table says.
fn config_of(alloc: Global, table: &Table) -> Result<Config, FieldError>
    ensures { Gives result (config_of (table_view table.now)) }
{
    check_keys(table)?;
    let speaker = read_speaker(alloc, required(Location::TOP, "speaker", table)?)?;
    let peers = read_peers(
        alloc,
        speaker.fields.local.address,
        optional_list(Location::TOP, "peer", MAX_PEERS, table)?,
    )?;
    let costs = read_costs(
        alloc,
        optional_list(Location::TOP, "cost", MAX_COSTS, table)?,
    )?;
    Ok(Config {
        local: speaker.fields.local,
        hold: speaker.fields.hold,
        local_pref: speaker.fields.local_pref,
        networks: speaker.networks,
        peers,
        costs,
    })
}

/// Reads a configuration from a text of TOML. `Bad` has the first fault of the text, in the order of `config_of`;
/// `OutOfMemory` says nothing of the text.
pub fn read_config(alloc: Global, text: &[u8]) -> Result<Config, FieldError>
    ensures good { IfOk result (λ c. config text.now ≡ Ok c) }
    ensures kept { IfOk result IsConfig }
    ensures bad { (fault : FieldFault) → IsErrOf result (FieldError.Bad fault) → config text.now ≡ Err fault }
{
    let table = read_document(alloc, text)?;
    config_of(alloc, &table)
}
