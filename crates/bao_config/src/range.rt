//! The reader of a range of memory.
ghost use Rattle.std.specs.Prelude.{Some};
ghost use Rattle.toml.specs.View.{view};
ghost use Rattle.bao_config.specs.Faults.{faults};
ghost use Rattle.bao_config.specs.KeyTable.{range};
ghost use Rattle.bao_config.specs.Spelled.{range_of, keys_of};
ghost use Rattle.bao_config.specs.Fits.{RangeFits};
ghost use Rattle.bao_config.specs.Answer.{Reads};

use crate::bounds::{BASE, SIZE};
use crate::error::{ConfigError, Spot};
use crate::fields::{integer_at, only_known, table_of};
use bao_types::ByteRange;
use toml::Value;

/// A range whose base and size stand at these rows.
#[tactic(auto, unfolding(crate::specs::KeyTable::range))]
pub(crate) fn read_range(
    item: &Value,
    base_row: u8,
    size_row: u8,
    spot: Spot,
) -> Result<ByteRange, ConfigError>
    ensures { Reads (λ x. x) RangeFits result
        (faults (range base_row size_row) spot (view item.now))
        (range_of (keys_of (Some (view item.now)))) }
{
    let table = table_of(item, spot)?;
    let base = integer_at(table, "base", BASE, spot.at_row(base_row))?;
    let size = integer_at(table, "size", SIZE, spot.at_row(size_row))?;
    only_known(table, &["base", "size"], spot)?;
    Ok(ByteRange { base, size })
}
