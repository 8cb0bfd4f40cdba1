//! Readers of the ports that a VM is given.
ghost use Rattle.std.specs.Prelude.{Some, codes};
ghost use Rattle.toml.specs.Data.{get_member};
ghost use Rattle.toml.specs.View.{view, table_view};
ghost use Rattle.bao_config.specs.Faults.{faults, or_none, in_j, at_row};
ghost use Rattle.bao_config.specs.Row as rows;
ghost use Rattle.bao_config.specs.KeyTable.{dev, devs};
ghost use Rattle.bao_config.specs.Spelled.{dev_of, tables_of, keys_of};
ghost use Rattle.bao_config.specs.Fits.{ListFits, DevFits};
ghost use Rattle.bao_config.specs.Answer.{Reads};

use crate::bounds::{INTERRUPT, PORT_ID};
use crate::config::Dev;
use crate::error::{ConfigError, Spot};
use crate::fields::{find, integer_at, only_known, table_of};
use crate::items::{Items, read_items};
use crate::row;
use arrayvec::ArrayVec;
use toml::{Table, Value};

#[tactic(auto, unfolding(crate::specs::KeyTable::dev))]
fn read_dev(item: &Value, spot: Spot) -> Result<Dev, ConfigError>
    ensures { Reads (λ x. x) DevFits result
        (faults dev spot (view item.now))
        (dev_of (keys_of (Some (view item.now)))) }
{
    let table = table_of(item, spot)?;
    let port = integer_at(table, "port", PORT_ID, spot.at_row(row::DEV_PORT))?;
    let irq = integer_at(table, "irq", INTERRUPT, spot.at_row(row::DEV_IRQ))?;
    only_known(table, &["port", "irq"], spot)?;
    Ok(Dev {
        port: port as u8,
        irq: irq as u16,
    })
}

/// The ports that a VM is given.
struct Devs;

impl Items for Devs {
    ghost use Rattle.bao_config.specs.declared.config.Dev.{Dev};

    type Item = Dev;

    ghost Plain = { Dev };

    ghost plain = { λ dev. dev };

    ghost Fits = { DevFits };

    ghost faults_at = { λ spot n d. faults dev (in_j n (at_row rows.dev spot)) d };

    ghost record_of = { λ d. dev_of (keys_of (Some d)) };

    fn read(item: &Value, spot: Spot, n: u8) -> Result<Dev, ConfigError> {
        read_dev(item, spot.in_j(row::DEV, n))
    }
}

#[tactic(auto, using(crate::proofs::Lists::map_same), unfolding(crate::specs::KeyTable::devs))]
pub(crate) fn read_devs(table: &Table, spot: Spot) -> Result<ArrayVec<Dev, 16>, ConfigError>
    ensures { Reads (λ v. v.items) (ListFits 0 16 DevFits) result
        (or_none (get_member (codes "devs") (table_view table.now)) (faults devs spot))
        (tables_of dev_of (get_member (codes "devs") (table_view table.now))) }
{
    match find(table, "devs") {
        Some(item) => read_items::<Devs, 16>(item, 0, spot),
        None => Ok(ArrayVec::new()),
    }
}
