//! The table of the speaker: itself, its hold time, its degree of preference, and its networks.
ghost use Rattle.std.specs.Prelude.{◌≡◌, codes};
ghost use Rattle.toml.specs.View.{view, table_view};
ghost use Rattle.xb_fields.specs.Fields.{optional};
ghost use Rattle.xb_fields.specs.Outcomes.{Gives};
ghost use Rattle.xbgp_config.specs.Configs.{is_hold, hold_time, speaker_fields, speaker_part};

use crate::limits::{DEFAULT_HOLD, DEFAULT_LOCAL_PREF, MAX_AS, MAX_HOLD, MAX_NETWORKS, MIN_HOLD};
use crate::lists::Networks;
use crate::networks::read_networks;
use crate::texts::{required_host, required_id};
use std::alloc::Global;
use toml::{Table, Value};
use xb_domain::{BadKind, Part, Side};
use xb_fields::{
    FieldError, FieldFault, Location, number, optional_list, optional_number, required_number,
    table_with, value_at,
};

// The speaker's table, of which there is one.
const SPEAKER: Location = Location {
    part: Part::Speaker,
    index: 0,
};

/// What a speaker's table says, except its networks.
#[derive(Clone, Copy)]
pub struct SpeakerFields {
    pub local: Side,
    pub hold: u16,
    pub local_pref: u32,
}

/// What a speaker's table says.
#[derive(Drop)]
pub struct SpeakerPart {
    pub fields: SpeakerFields,
    pub networks: Networks,
}

fn is_hold(hold: u32) -> bool
    ensures { result ≡ is_hold hold }
{
    hold == 0 || MIN_HOLD <= hold && hold <= MAX_HOLD
}

#[tactic(auto, unfolding(crate::specs::Configs::hold_time))]
fn hold_time(value: &Value) -> Result<u16, FieldFault>
    ensures { result ≡ hold_time (view value.now) }
{
    let hold = number(SPEAKER, 0, MAX_HOLD, value)?;
    if is_hold(hold) {
        Ok(hold as u16)
    } else {
        Err(SPEAKER.fault(BadKind::Range))
    }
}

#[tactic(auto, unfolding(xb_fields::specs::Fields::optional))]
fn optional_hold(table: &Table) -> Result<u16, FieldFault>
    ensures { result ≡ optional (codes "hold") DEFAULT_HOLD hold_time (table_view table.now) }
{
    match value_at(table, "hold") {
        Some(value) => hold_time(value),
        None => Ok(DEFAULT_HOLD),
    }
}

#[tactic(auto, unfolding(crate::specs::Configs::speaker_fields))]
fn speaker_fields(table: &Table) -> Result<SpeakerFields, FieldFault>
    ensures { result ≡ speaker_fields (table_view table.now) }
{
    let asn = required_number(SPEAKER, "as", 1, MAX_AS, table)?;
    let id = required_id(SPEAKER, "id", table)?;
    let address = required_host(SPEAKER, "address", table)?;
    let hold = optional_hold(table)?;
    let local_pref = optional_number(
        SPEAKER,
        "local_pref",
        DEFAULT_LOCAL_PREF,
        0,
        u32::MAX,
        table,
    )?;
    let local = Side {
        number: 0,
        asn,
        address,
        id,
        kind: 0,
    };
    Ok(SpeakerFields {
        local,
        hold,
        local_pref,
    })
}

/// Reads the table of the speaker. Its fields are judged in the order of `speaker_fields`, and then its networks.
pub fn read_speaker(alloc: Global, value: &Value) -> Result<SpeakerPart, FieldError>
    ensures { Gives result (speaker_part (view value.now)) }
{
    let keys = ["as", "id", "address", "hold", "local_pref", "networks"];
    let table = table_with(SPEAKER, &keys, value)?;
    let fields = speaker_fields(table)?;
    let listed = optional_list(SPEAKER, "networks", MAX_NETWORKS, table)?;
    let networks = read_networks(alloc, listed)?;
    Ok(SpeakerPart { fields, networks })
}
