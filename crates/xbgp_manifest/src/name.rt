//! Names of maps and programs.
ghost use Rattle.std.specs.Prelude.{◌≡◌, IfOk, codes};
ghost use Rattle.std.specs.List.{list_all};
ghost use Rattle.std.specs.Result.{result_map_both};
ghost use Rattle.toml.specs.View.{table_view};
ghost use Rattle.xb_fields.specs.Fields.{required, text};
ghost use Rattle.xbgp_manifest.specs.Manifests.{is_name_character, is_name, name_text};

use crate::limits::MAX_NAME;
use std::alloc::{AllocError, Global};
use std::marker::Model;
use toml::Table;
use xb_domain::BadKind;
use xb_fields::{FieldFault, Location, required_text};

/// The name of a map or of a program.
#[derive(Drop)]
pub struct Name {
    text: String,
}

impl Model for Name {
    ghost use Rattle.std.specs.Prelude.{ℕ, List, string_bytes};

    ghost Value = { List ℕ };

    ghost view = { λ n. string_bytes n.text };
}

impl Name {
    // A name of its own, with the text copied.
    pub(crate) fn of(alloc: Global, text: &str) -> Result<Name, AllocError>
        ensures { IfOk result (λ name. name ≡ text.now) }
    {
        Ok(Name {
            text: String::from_str(alloc, text)?,
        })
    }

    /// The name's text.
    pub fn as_str(&self) -> &str
        ensures { result.now ≡ self.now }
    {
        self.text.as_str()
    }
}

fn is_name_character(c: u8) -> bool
    ensures { result ≡ is_name_character c }
{
    matches!(c, b'a'..=b'z' | b'0'..=b'9' | b'_' | b'-')
}

fn has_name_characters(text: &[u8]) -> bool
    ensures { result ≡ list_all is_name_character text.now }
{
    text.iter().all(|c| is_name_character(*c))
}

fn is_name(text: &[u8]) -> bool
    ensures { result ≡ is_name text.now }
{
    1 <= text.len() && text.len() <= MAX_NAME && has_name_characters(text)
}

/// The name of an entry. `Range` if its text is not a name.
#[tactic(auto, using(xb_fields::proofs::TextLemmas::text_absent))]
pub(crate) fn required_name(at: Location, table: &Table) -> Result<&str, FieldFault>
    ensures { result_map_both (λ s. s.now) (λ bad. bad) result
        ≡ required at (codes "name") (text at name_text) (table_view table.now) }
{
    let text = required_text(at, "name", table)?;
    if is_name(text.as_bytes()) {
        Ok(text)
    } else {
        Err(at.fault(BadKind::Range))
    }
}
