//! Addresses and identifiers, as the texts at keys say them: the first of four numbers is the high octet.
ghost use Rattle.std.specs.Prelude.{◌≡◌};
ghost use Rattle.toml.specs.View.{table_view};
ghost use Rattle.xb_values.specs.Readers.{read_dotted};
ghost use Rattle.xb_fields.specs.Fields.{required, text};
ghost use Rattle.xbgp_config.specs.Configs.{is_host_address, host_text, id_text};

use bgp_attr::is_host;
use toml::Table;
use xb_domain::BadKind;
use xb_fields::{FieldFault, Location, required_text};
use xb_values::read_dotted;

// Whether an address may be a host's, by its first octet.
fn is_host_address(address: u32) -> bool
    ensures { result ≡ is_host_address address }
{
    is_host((address / 0x0100_0000) as u8)
}

fn host_text(text: &[u8]) -> Option<u32>
    ensures { result ≡ host_text text.now }
{
    let address = read_dotted(text)?;
    if is_host_address(address) {
        Some(address)
    } else {
        None
    }
}

fn id_text(text: &[u8]) -> Option<u32>
    ensures { result ≡ id_text text.now }
{
    let id = read_dotted(text)?;
    if id != 0 { Some(id) } else { None }
}

/// The address at a key. `Range` if its text is not one.
#[tactic(auto, using(xb_fields::proofs::TextLemmas::text_absent))]
pub fn required_address(at: Location, key: &str, table: &Table) -> Result<u32, FieldFault>
    ensures { result ≡ required at key.now (text at read_dotted) (table_view table.now) }
{
    let text = required_text(at, key, table)?;
    read_dotted(text.as_bytes()).ok_or(at.fault(BadKind::Range))
}

/// The address of a host at a key. `Range` if its text is not one.
#[tactic(auto, using(xb_fields::proofs::TextLemmas::text_absent))]
pub fn required_host(at: Location, key: &str, table: &Table) -> Result<u32, FieldFault>
    ensures { result ≡ required at key.now (text at host_text) (table_view table.now) }
{
    let text = required_text(at, key, table)?;
    host_text(text.as_bytes()).ok_or(at.fault(BadKind::Range))
}

/// The BGP identifier at a key (RFC 4271, section 4.2). `Range` if its text is not an address, or is 0.0.0.0.
#[tactic(auto, using(xb_fields::proofs::TextLemmas::text_absent))]
pub fn required_id(at: Location, key: &str, table: &Table) -> Result<u32, FieldFault>
    ensures { result ≡ required at key.now (text at id_text) (table_view table.now) }
{
    let text = required_text(at, key, table)?;
    id_text(text.as_bytes()).ok_or(at.fault(BadKind::Range))
}
