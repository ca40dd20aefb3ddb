//! The values at the keys of a table.
ghost use Rattle.std.specs.Prelude.{◌≡◌, ◌≤◌, IfOk, [], length, map, string_bytes, option_map};
ghost use Rattle.std.specs.Result.{result_map_both};
ghost use Rattle.std.specs.List.{list_any, list_all};
ghost use Rattle.std.specs.BTreeMap.{keys};
ghost use Rattle.std.specs.Str.{bytes_eq};
ghost use Rattle.toml.specs.Data.{get_member};
ghost use Rattle.toml.specs.View.{view, table_view};
ghost use Rattle.xb_domain.specs.declared.bad.BadKind.TheVariants.{Missing};
ghost use Rattle.xb_fields.specs.Fields.{keys_listed, present, number, string_in, list_of, required, optional};

use crate::fault::{FieldFault, Location};
use crate::value::{list_of, number, text};
use toml::{Table, Value};
use xb_domain::BadKind;

/// Whether each key of a table is in `listed`.
pub fn keys_listed(listed: &[&str], table: &Table) -> bool
    ensures { result ≡ keys_listed (map (λ key. key.now) listed.now) (table_view table.now) }
{
    all_listed(listed, table)
}

// The same over the keys in the table's order.
fn all_listed(listed: &[&str], table: &Table) -> bool
    ensures { result ≡ list_all (λ key. list_any (λ one. bytes_eq (string_bytes key) one.now) listed.now)
        (keys table.now) }
{
    table.keys().all(|key| is_listed(listed, key.as_str()))
}

fn is_listed(listed: &[&str], key: &str) -> bool
    ensures { result ≡ list_any (λ one. bytes_eq key.now one.now) listed.now }
{
    listed.iter().any(|one| key == *one)
}

/// The value at a key.
pub fn value_at<'a>(table: &'a Table, key: &str) -> Option<&'a Value>
    ensures { option_map (λ v. view v.now) result ≡ get_member key.now (table_view table.now) }
{
    table.get(key)
}

/// The value at a key, or `Missing`.
pub fn required<'a>(at: Location, key: &str, table: &'a Table) -> Result<&'a Value, FieldFault>
    ensures { result_map_both (λ v. view v.now) (λ bad. bad) result
        ≡ present at Missing (get_member key.now (table_view table.now)) }
{
    value_at(table, key).ok_or(at.fault(BadKind::Missing))
}

/// The number at a key, from `least` to `most`. `Missing` if the key is absent, and else as `number`.
#[tactic(auto, unfolding(crate::specs::Fields::required))]
pub fn required_number(
    at: Location,
    key: &str,
    least: u32,
    most: u32,
    table: &Table,
) -> Result<u32, FieldFault>
    ensures value { result ≡ required at key.now (number at least most) (table_view table.now) }
    ensures between { IfOk result (λ n. (least ≤ n) × (n ≤ most)) }
{
    number(at, least, most, required(at, key, table)?)
}

/// The number at a key, from `least` to `most`, or `default` if the key is absent.
#[tactic(auto, unfolding(crate::specs::Fields::optional))]
pub fn optional_number(
    at: Location,
    key: &str,
    default: u32,
    least: u32,
    most: u32,
    table: &Table,
) -> Result<u32, FieldFault>
    ensures value { result ≡ optional key.now default (number at least most) (table_view table.now) }
{
    match value_at(table, key) {
        Some(value) => number(at, least, most, value),
        None => Ok(default),
    }
}

/// The text at a key. `Missing` if the key is absent, and else as `text`.
#[tactic(auto, unfolding(crate::specs::Fields::required))]
pub fn required_text<'a>(at: Location, key: &str, table: &'a Table) -> Result<&'a str, FieldFault>
    ensures { result_map_both (λ s. s.now) (λ bad. bad) result
        ≡ required at key.now (string_in at) (table_view table.now) }
{
    text(at, required(at, key, table)?)
}

/// The values of the array at a key, at most `most`; the empty slice if the key is absent.
#[tactic(auto, unfolding(crate::specs::Fields::optional))]
pub fn optional_list<'a>(
    at: Location,
    key: &str,
    most: u32,
    table: &'a Table,
) -> Result<&'a [Value], FieldFault>
    ensures values { result_map_both (λ vs. map view vs.now) (λ bad. bad) result
        ≡ optional key.now [] (list_of at most) (table_view table.now) }
    ensures count { IfOk result (λ vs. length vs.now ≤ most) }
{
    match value_at(table, key) {
        Some(value) => list_of(at, most, value),
        None => Ok(&[]),
    }
}
