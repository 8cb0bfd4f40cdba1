//! Readers of a VM's regions.
ghost use Rattle.std.specs.Prelude.{Some, codes};
ghost use Rattle.toml.specs.Data.{get_member};
ghost use Rattle.toml.specs.View.{view, table_view};
ghost use Rattle.bao_config.specs.Faults.{faults, text, or_shape, in_j, at_row};
ghost use Rattle.bao_config.specs.Texts.{is_region_access};
ghost use Rattle.bao_config.specs.Row as rows;
ghost use Rattle.bao_config.specs.KeyTable.{region, regions};
ghost use Rattle.bao_config.specs.Spelled.{region_of, tables_of, keys_of, rights_of, text_of};
ghost use Rattle.bao_config.specs.Fits.{ListFits, RegionFits};
ghost use Rattle.bao_config.specs.Answer.{Reads};

use crate::bounds::{BASE, SIZE};
use crate::config::MapRegion;
use crate::error::{ConfigError, Spot};
use crate::fields::{integer_at, only_known, required, str_at, table_of};
use crate::items::{Items, read_items};
use crate::row;
use arrayvec::ArrayVec;
use bao_types::ByteRange;
use toml::{Table, Value};

/// Whether a region may be written and executed.
fn read_access(table: &Table, spot: Spot) -> Result<(bool, bool), ConfigError>
    ensures { Reads (λ a. a) (λ a. Unit {0}) result
        (or_shape spot (get_member (codes "access") (table_view table.now)) (faults (text is_region_access) spot))
        (rights_of (text_of (get_member (codes "access") (table_view table.now)))) }
{
    match str_at(table, "access", spot)? {
        "r" => Ok((false, false)),
        "rx" => Ok((false, true)),
        "rw" => Ok((true, false)),
        "rwx" => Ok((true, true)),
        _ => Err(ConfigError::BadShape { spot }),
    }
}

#[tactic(auto, unfolding(crate::specs::KeyTable::region))]
fn read_region(item: &Value, spot: Spot) -> Result<MapRegion, ConfigError>
    ensures { Reads (λ x. x) RegionFits result
        (faults region spot (view item.now))
        (region_of (keys_of (Some (view item.now)))) }
{
    let table = table_of(item, spot)?;
    let base = integer_at(table, "base", BASE, spot.at_row(row::REGION_BASE))?;
    let size = integer_at(table, "size", SIZE, spot.at_row(row::REGION_SIZE))?;
    let (write, exec) = read_access(table, spot.at_row(row::REGION_ACCESS))?;
    only_known(table, &["base", "size", "access"], spot)?;
    Ok(MapRegion {
        range: ByteRange { base, size },
        write,
        exec,
    })
}

/// A VM's regions.
struct Regions;

impl Items for Regions {
    ghost use Rattle.bao_config.specs.declared.config.MapRegion.{MapRegion};

    type Item = MapRegion;

    ghost Plain = { MapRegion };

    ghost plain = { λ x. x };

    ghost Fits = { RegionFits };

    ghost faults_at = { λ spot n d. faults region (in_j n (at_row rows.region spot)) d };

    ghost record_of = { λ d. region_of (keys_of (Some d)) };

    fn read(item: &Value, spot: Spot, n: u8) -> Result<MapRegion, ConfigError> {
        read_region(item, spot.in_j(row::REGION, n))
    }
}

#[tactic(auto, using(crate::proofs::Lists::map_same), unfolding(crate::specs::KeyTable::regions))]
pub(crate) fn read_regions(
    table: &Table,
    spot: Spot,
) -> Result<ArrayVec<MapRegion, 16>, ConfigError>
    ensures { Reads (λ v. v.items) (ListFits 1 16 RegionFits) result
        (or_shape spot (get_member (codes "regions") (table_view table.now)) (faults regions spot))
        (tables_of region_of (get_member (codes "regions") (table_view table.now))) }
{
    read_items::<Regions, 16>(required(table, "regions", spot)?, 1, spot)
}
