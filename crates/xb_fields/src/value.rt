//! What a single value says: a table, a number, a text or a list.
ghost use Rattle.std.specs.Prelude.{◌≡◌, ◌≤◌, IfOk, IfSome, length, map};
ghost use Rattle.std.specs.Result.{result_map_both};
ghost use Rattle.toml.specs.View.{view, table_view};
ghost use Rattle.xb_fields.specs.Fields.{table_with, number, number_between, string_in, list_of};

use crate::fault::{FieldFault, Location};
use crate::field::keys_listed;
use toml::{Table, Value};
use xb_domain::BadKind;

/// The table that a value is. `Shape` if it is another value, and `Key` if a key is not in `listed`.
#[tactic(auto, unfolding(crate::specs::Fields::table_with))]
pub fn table_with<'a>(
    at: Location,
    listed: &[&str],
    value: &'a Value,
) -> Result<&'a Table, FieldFault>
    ensures { result_map_both (λ t. table_view t.now) (λ bad. bad) result
        ≡ table_with at (map (λ key. key.now) listed.now) (view value.now) }
{
    let Some(table) = value.as_table() else {
        return Err(at.fault(BadKind::Shape));
    };
    if keys_listed(listed, table) {
        Ok(table)
    } else {
        Err(at.fault(BadKind::Key))
    }
}

/// The number that a value is. `Shape` if it is no whole number, and `Range` if it is not from `least` to `most`.
#[tactic(auto, unfolding(crate::specs::Fields::number))]
pub fn number(at: Location, least: u32, most: u32, value: &Value) -> Result<u32, FieldFault>
    ensures value { result ≡ number at least most (view value.now) }
    ensures between { IfOk result (λ n. (least ≤ n) × (n ≤ most)) }
{
    let Some(n) = value.as_integer() else {
        return Err(at.fault(BadKind::Shape));
    };
    number_between(least, most, n).ok_or(at.fault(BadKind::Range))
}

// A number from `least` to `most`.
fn number_between(least: u32, most: u32, n: i64) -> Option<u32>
    ensures value { result ≡ number_between least most n }
    ensures between { IfSome result (λ n. (least ≤ n) × (n ≤ most)) }
{
    let n = u32::try_from(n).ok()?;
    if least <= n && n <= most {
        Some(n)
    } else {
        None
    }
}

/// The text that a value is, or `Shape`.
#[tactic(auto, unfolding(crate::specs::Fields::string_in))]
pub fn text(at: Location, value: &Value) -> Result<&str, FieldFault>
    ensures { result_map_both (λ s. s.now) (λ bad. bad) result ≡ string_in at (view value.now) }
{
    value.as_str().ok_or(at.fault(BadKind::Shape))
}

/// The values of an array, in order. `Shape` if the value is no array, and `Count` if it has more than `most` values.
#[tactic(auto, unfolding(crate::specs::Fields::list_of))]
pub fn list_of(at: Location, most: u32, value: &Value) -> Result<&[Value], FieldFault>
    ensures values { result_map_both (λ vs. map view vs.now) (λ bad. bad) result ≡ list_of at most (view value.now) }
    ensures count { IfOk result (λ vs. length vs.now ≤ most) }
{
    let Some(values) = value.as_array() else {
        return Err(at.fault(BadKind::Shape));
    };
    if values.len() <= most as usize {
        Ok(values.as_slice())
    } else {
        Err(at.fault(BadKind::Count))
    }
}
