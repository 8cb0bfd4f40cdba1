//! Readers of what stands at one key, whatever the key is.
ghost use Rattle.std.specs.Prelude.{◌≡◌, ◌<◌, ◌≤◌, [], List, ℕ, Bool, Some, None, IfOk, IfErr, OnOk, option_map, option_and_then, length, map};
ghost use Rattle.toml.specs.Data.{get_member, as_str, as_array, as_table};
ghost use Rattle.toml.specs.View.{view, table_view, items_view};
ghost use Rattle.bao_config.specs.declared.error.ConfigError.TheVariants.{BadShape};
ghost use Rattle.bao_config.specs.Bounds.{IsInBounds};
ghost use Rattle.bao_config.specs.Faults.{faults, number, text, items_within, or_shape, unknown_faults, is_one_of, IsFirst};
ghost use Rattle.bao_config.specs.Spelled.{number_of};
ghost use Rattle.bao_config.specs.Answer.{Reads};

use crate::bounds::Bounds;
use crate::error::{ConfigError, Spot};
use toml::{Table, Value};

/// What stands at the key, if anything does.
pub(crate) fn find<'a>(table: &'a Table, key: &str) -> Option<&'a Value>
    ensures { option_map (λ v. view v.now) result ≡ get_member key.now (table_view table.now) }
{
    table.get(key)
}

/// What stands at a key that must be there.
pub(crate) fn required<'a>(
    table: &'a Table,
    key: &str,
    spot: Spot,
) -> Result<&'a Value, ConfigError>
    ensures ok { IfOk result (λ v. get_member key.now (table_view table.now) ≡ Some (view v.now)) }
    ensures err { IfErr result (λ e.
        (get_member key.now (table_view table.now) ≡ None) × (e ≡ BadShape spot)) }
{
    find(table, key).ok_or(ConfigError::BadShape { spot })
}

/// The table that the item is.
pub(crate) fn table_of(item: &Value, spot: Spot) -> Result<&Table, ConfigError>
    ensures ok { IfOk result (λ t. as_table (view item.now) ≡ Some (table_view t.now)) }
    ensures err { IfErr result (λ e. (as_table (view item.now) ≡ None) × (e ≡ BadShape spot)) }
{
    item.as_table().ok_or(ConfigError::BadShape { spot })
}

/// The items of an array of at least and at most this many.
#[tactic(auto, using(crate::proofs::Lists::count_items_view))]
pub(crate) fn items_of(
    item: &Value,
    least: usize,
    most: usize,
    spot: Spot,
) -> Result<&[Value], ConfigError>
    ensures ok { IfOk result (λ vs.
        items_within least most (view item.now) ≡ Some (items_view vs.now)) }
    ensures array { IfOk result (λ vs. as_array (view item.now) ≡ Some (items_view vs.now)) }
    ensures long { IfOk result (λ vs. least ≤ length vs.now) }
    ensures short { IfOk result (λ vs. length vs.now ≤ most) }
    ensures err { IfErr result (λ e.
        (items_within least most (view item.now) ≡ None) × (e ≡ BadShape spot)) }
{
    let Some(items) = item.as_array() else {
        return Err(ConfigError::BadShape { spot });
    };
    if items.len() < least || most < items.len() {
        return Err(ConfigError::BadShape { spot });
    }
    Ok(items.as_slice())
}

/// The integer that the item is.
pub(crate) fn integer_of(item: &Value, bounds: Bounds, spot: Spot) -> Result<u64, ConfigError>
    requires { 0 < bounds.multiple }
    ensures { Reads (λ n. n) (IsInBounds bounds) result
        (faults (number bounds) spot (view item.now))
        (number_of (Some (view item.now))) }
{
    let Some(value) = item.as_integer() else {
        return Err(ConfigError::BadShape { spot });
    };
    match u64::try_from(value) {
        Ok(n) if bounds.admits(n) => Ok(n),
        _ => Err(ConfigError::BadValue { spot, value }),
    }
}

/// The integer at a key that must be there.
pub(crate) fn integer_at(
    table: &Table,
    key: &str,
    bounds: Bounds,
    spot: Spot,
) -> Result<u64, ConfigError>
    requires { 0 < bounds.multiple }
    ensures { Reads (λ n. n) (IsInBounds bounds) result
        (or_shape spot (get_member key.now (table_view table.now)) (faults (number bounds) spot))
        (number_of (get_member key.now (table_view table.now))) }
{
    match find(table, key) {
        Some(item) => integer_of(item, bounds, spot),
        None => Err(ConfigError::BadShape { spot }),
    }
}

/// The text at a key that must be there.
pub(crate) fn str_at<'a>(table: &'a Table, key: &str, spot: Spot) -> Result<&'a str, ConfigError>
    ensures ok { IfOk result (λ s.
        option_and_then as_str (get_member key.now (table_view table.now)) ≡ Some s.now) }
    ensures err { IfErr result (λ e. (test : List ℕ → Bool)
        → IsFirst e (or_shape spot (get_member key.now (table_view table.now)) (faults (text test) spot))) }
{
    match find(table, key) {
        Some(item) => item.as_str().ok_or(ConfigError::BadShape { spot }),
        None => Err(ConfigError::BadShape { spot }),
    }
}

fn is_listed(names: &[&str], key: &str) -> bool
    ensures { result ≡ is_one_of (map (λ s. s.now) names.now) key.now }
{
    names.contains(&key)
}

/// Refuses a table that has a key beside these names.
pub(crate) fn only_known(table: &Table, names: &[&str], spot: Spot) -> Result<(), ConfigError>
    ensures ok { OnOk result
        (unknown_faults (map (λ s. s.now) names.now) spot (table_view table.now) ≡ []) }
    ensures err { IfErr result (λ e.
        IsFirst e (unknown_faults (map (λ s. s.now) names.now) spot (table_view table.now))) }
{
    'members: for (key, _value) in table.iter() {
        if !is_listed(names, key.as_str()) {
            return Err(ConfigError::BadShape { spot });
        }
    }
    Ok(())
}
