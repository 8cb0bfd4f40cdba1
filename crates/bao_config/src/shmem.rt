//! Readers of the shared memories.
ghost use Rattle.std.specs.Prelude.{Some, codes};
ghost use Rattle.toml.specs.Data.{get_member};
ghost use Rattle.toml.specs.View.{view, table_view};
ghost use Rattle.bao_config.specs.Faults.{faults, or_none, in_i, at_row};
ghost use Rattle.bao_config.specs.Row as rows;
ghost use Rattle.bao_config.specs.KeyTable.{shmem, shmems};
ghost use Rattle.bao_config.specs.Spelled.{shmem_of, tables_of, keys_of};
ghost use Rattle.bao_config.specs.Fits.{ListFits, ShmemFits};
ghost use Rattle.bao_config.specs.Answer.{Reads};

use crate::bounds::{BASE, EVENTS, SIZE};
use crate::config::Shmem;
use crate::error::{ConfigError, Spot};
use crate::fields::{find, integer_at, only_known, table_of};
use crate::items::{Items, read_items};
use crate::row;
use arrayvec::ArrayVec;
use bao_types::ByteRange;
use toml::{Table, Value};

#[tactic(auto, unfolding(crate::specs::KeyTable::shmem))]
fn read_shmem(item: &Value, spot: Spot) -> Result<Shmem, ConfigError>
    ensures { Reads (λ x. x) ShmemFits result
        (faults shmem spot (view item.now))
        (shmem_of (keys_of (Some (view item.now)))) }
{
    let table = table_of(item, spot)?;
    let base = integer_at(table, "base", BASE, spot.at_row(row::SHMEM_BASE))?;
    let size = integer_at(table, "size", SIZE, spot.at_row(row::SHMEM_SIZE))?;
    let events = integer_at(table, "events", EVENTS, spot.at_row(row::SHMEM_EVENTS))?;
    only_known(table, &["base", "size", "events"], spot)?;
    Ok(Shmem {
        range: ByteRange { base, size },
        events: events as u8,
    })
}

/// The shared memories.
struct Shmems;

impl Items for Shmems {
    ghost use Rattle.bao_config.specs.declared.config.Shmem.{Shmem};

    type Item = Shmem;

    ghost Plain = { Shmem };

    ghost plain = { λ x. x };

    ghost Fits = { ShmemFits };

    ghost faults_at = { λ spot n d. faults shmem (in_i n (at_row rows.shmem spot)) d };

    ghost record_of = { λ d. shmem_of (keys_of (Some d)) };

    fn read(item: &Value, spot: Spot, n: u8) -> Result<Shmem, ConfigError> {
        read_shmem(item, spot.in_i(row::SHMEM, n))
    }
}

#[tactic(auto, using(crate::proofs::Lists::map_same), unfolding(crate::specs::KeyTable::shmems))]
pub(crate) fn read_shmems(table: &Table, spot: Spot) -> Result<ArrayVec<Shmem, 8>, ConfigError>
    ensures { Reads (λ v. v.items) (ListFits 0 8 ShmemFits) result
        (or_none (get_member (codes "shmem") (table_view table.now)) (faults shmems spot))
        (tables_of shmem_of (get_member (codes "shmem") (table_view table.now))) }
{
    match find(table, "shmem") {
        Some(item) => read_items::<Shmems, 8>(item, 0, spot),
        None => Ok(ArrayVec::new()),
    }
}
