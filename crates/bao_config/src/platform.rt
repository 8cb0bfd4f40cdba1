//! Readers of the platform's tables.
ghost use Rattle.std.specs.Prelude.{ℕ, Some, codes};
ghost use Rattle.toml.specs.Data.{get_member};
ghost use Rattle.toml.specs.View.{view, table_view};
ghost use Rattle.bao_config.specs.Bounds.{IsInBounds, entries};
ghost use Rattle.bao_config.specs.Faults.{faults, number, or_shape, or_none, in_i, at_row};
ghost use Rattle.bao_config.specs.Row as rows;
ghost use Rattle.bao_config.specs.KeyTable.{range, banks, platform_cores, port, ports, platform};
ghost use Rattle.bao_config.specs.Spelled.{range_of, port_of, platform_of, number_of, numbers_of, tables_of, keys_of};
ghost use Rattle.bao_config.specs.Data.{platform_data};
ghost use Rattle.bao_config.specs.Fits.{ListFits, RangeFits, PortFits, PlatformFits};
ghost use Rattle.bao_config.specs.Answer.{Reads};

use crate::bounds::{ENTRIES, FRAME, INTERRUPT, PORT_BASE, PORT_ID};
use crate::config::{Platform, PortPlace};
use crate::error::{ConfigError, Spot};
use crate::fields::{find, integer_at, integer_of, only_known, required, table_of};
use crate::items::{Items, read_items};
use crate::range::read_range;
use crate::row;
use arrayvec::ArrayVec;
use bao_types::ByteRange;
use toml::{Table, Value};

/// The memory banks.
struct Banks;

impl Items for Banks {
    ghost use Rattle.bao_types.specs.declared.range.ByteRange.{ByteRange};

    type Item = ByteRange;

    ghost Plain = { ByteRange };

    ghost plain = { λ x. x };

    ghost Fits = { RangeFits };

    ghost faults_at = { λ spot n d. faults (range rows.bank_base rows.bank_size) (in_i n (at_row rows.bank spot)) d };

    ghost record_of = { λ d. range_of (keys_of (Some d)) };

    fn read(item: &Value, spot: Spot, n: u8) -> Result<ByteRange, ConfigError> {
        read_range(
            item,
            row::BANK_BASE,
            row::BANK_SIZE,
            spot.in_i(row::BANK, n),
        )
    }
}

#[tactic(auto, using(crate::proofs::Lists::map_same), unfolding(crate::specs::KeyTable::banks))]
fn read_banks(table: &Table, spot: Spot) -> Result<ArrayVec<ByteRange, 8>, ConfigError>
    ensures { Reads (λ v. v.items) (ListFits 1 8 RangeFits) result
        (or_shape spot (get_member (codes "banks") (table_view table.now)) (faults banks spot))
        (tables_of range_of (get_member (codes "banks") (table_view table.now))) }
{
    read_items::<Banks, 8>(required(table, "banks", spot)?, 1, spot)
}

/// The cores' numbers of regions.
struct Cores;

impl Items for Cores {
    type Item = u8;

    ghost Plain = { ℕ };

    ghost plain = { λ x. x };

    ghost Fits = { IsInBounds entries };

    ghost faults_at = { λ spot n d. faults (number entries) (in_i n (at_row rows.platform_core spot)) d };

    ghost record_of = { λ d. number_of (Some d) };

    fn read(item: &Value, spot: Spot, n: u8) -> Result<u8, ConfigError> {
        Ok(integer_of(item, ENTRIES, spot.in_i(row::PLATFORM_CORE, n))? as u8)
    }
}

#[tactic(auto, using(crate::proofs::Lists::map_same), unfolding(crate::specs::KeyTable::platform_cores))]
fn read_cores(table: &Table, spot: Spot) -> Result<ArrayVec<u8, 8>, ConfigError>
    ensures { Reads (λ v. v.items) (ListFits 1 8 (IsInBounds entries)) result
        (or_shape spot (get_member (codes "cores") (table_view table.now)) (faults platform_cores spot))
        (numbers_of (get_member (codes "cores") (table_view table.now))) }
{
    read_items::<Cores, 8>(required(table, "cores", spot)?, 1, spot)
}

#[tactic(auto, unfolding(crate::specs::KeyTable::port))]
fn read_port(item: &Value, spot: Spot) -> Result<PortPlace, ConfigError>
    ensures { Reads (λ x. x) PortFits result
        (faults port spot (view item.now))
        (port_of (keys_of (Some (view item.now)))) }
{
    let table = table_of(item, spot)?;
    let id = integer_at(table, "id", PORT_ID, spot.at_row(row::PORT_ID))?;
    let base = integer_at(table, "base", PORT_BASE, spot.at_row(row::PORT_BASE))?;
    let spi = integer_at(table, "spi", INTERRUPT, spot.at_row(row::PORT_SPI))?;
    only_known(table, &["id", "base", "spi"], spot)?;
    Ok(PortPlace {
        id: id as u8,
        base,
        spi: spi as u16,
    })
}

/// The ports.
struct Ports;

impl Items for Ports {
    ghost use Rattle.bao_config.specs.declared.config.PortPlace.{PortPlace};

    type Item = PortPlace;

    ghost Plain = { PortPlace };

    ghost plain = { λ x. x };

    ghost Fits = { PortFits };

    ghost faults_at = { λ spot n d. faults port (in_i n (at_row rows.port spot)) d };

    ghost record_of = { λ d. port_of (keys_of (Some d)) };

    fn read(item: &Value, spot: Spot, n: u8) -> Result<PortPlace, ConfigError> {
        read_port(item, spot.in_i(row::PORT, n))
    }
}

#[tactic(auto, using(crate::proofs::Lists::map_same), unfolding(crate::specs::KeyTable::ports))]
fn read_ports(table: &Table, spot: Spot) -> Result<ArrayVec<PortPlace, 16>, ConfigError>
    ensures { Reads (λ v. v.items) (ListFits 0 16 PortFits) result
        (or_none (get_member (codes "ports") (table_view table.now)) (faults ports spot))
        (tables_of port_of (get_member (codes "ports") (table_view table.now))) }
{
    match find(table, "ports") {
        Some(item) => read_items::<Ports, 16>(item, 0, spot),
        None => Ok(ArrayVec::new()),
    }
}

#[tactic(auto, using(crate::proofs::Lists::is_first_append), unfolding(crate::specs::KeyTable::platform))]
pub(crate) fn read_platform(item: &Value, spot: Spot) -> Result<Platform, ConfigError>
    ensures { Reads platform_data PlatformFits result
        (faults platform spot (view item.now))
        (platform_of (keys_of (Some (view item.now)))) }
{
    let table = table_of(item, spot)?;
    let banks = read_banks(table, spot.at_row(row::BANKS))?;
    let cores = read_cores(table, spot.at_row(row::PLATFORM_CORES))?;
    let gicd = integer_at(table, "gicd", FRAME, spot.at_row(row::GICD))?;
    let gicr = integer_at(table, "gicr", FRAME, spot.at_row(row::GICR))?;
    let ports = read_ports(table, spot.at_row(row::PORTS))?;
    only_known(table, &["banks", "cores", "gicd", "gicr", "ports"], spot)?;
    Ok(Platform {
        banks,
        cores,
        gicd,
        gicr,
        ports,
    })
}
