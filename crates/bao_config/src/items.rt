//! The reader of an array, whatever its items are.
ghost use Rattle.std.specs.Prelude.{◌≤◌, ℕ, List, Some, map};
ghost use Rattle.toml.specs.Data.{Data};
ghost use Rattle.toml.specs.View.{view};
ghost use Rattle.bao_config.specs.declared.error.Spot.{Spot};
ghost use Rattle.bao_config.specs.declared.error.ConfigError.{ConfigError};
ghost use Rattle.bao_config.specs.Faults.{each, items_within, or_shape};
ghost use Rattle.bao_config.specs.Spelled.{each_of, items_of};
ghost use Rattle.bao_config.specs.Fits.{ListFits};
ghost use Rattle.bao_config.specs.Answer.{Reads};

use crate::error::{ConfigError, Spot};
use crate::fields::items_of;
use arrayvec::ArrayVec;
use toml::Value;

/// What the items of an array are.
pub(crate) trait Items {
    /// An item as it is read.
    type Item: Default + Drop;

    // an item's plain data
    ghost Plain: { Type 0 };

    ghost plain: { Self.Item → Plain };

    // what every item keeps
    ghost Fits: { Plain → Type 0 };

    // the faults of the n-th item of an array at the spot
    ghost faults_at: { Spot → ℕ → Data → List ConfigError };

    // what an item spells
    ghost record_of: { Data → Plain };

    /// Reads the `n`-th item of the array at the spot.
    fn read(item: &Value, spot: Spot, n: u8) -> Result<Self::Item, ConfigError>
        ensures { Reads plain Fits result (faults_at spot n (view item.now)) (record_of (view item.now)) };
}

/// Reads an array of at least this many items and at most `N`, in order.
pub(crate) fn read_items<I: Items, const N: usize>(
    item: &Value,
    least: usize,
    spot: Spot,
) -> Result<ArrayVec<I::Item, N>, ConfigError>
    requires { N ≤ 256 }
    ensures { Reads (λ v. map I.plain v.items) (ListFits least N I.Fits) result
        (or_shape spot (items_within least N (view item.now)) (each (I.faults_at spot) 0))
        (each_of I.record_of (items_of (Some (view item.now)))) }
{
    let items = items_of(item, least, N, spot)?;
    let mut read = ArrayVec::new();
    for (n, item) in items.iter().enumerate() {
        read.push(I::read(item, spot, n as u8)?);
    }
    Ok(read)
}
