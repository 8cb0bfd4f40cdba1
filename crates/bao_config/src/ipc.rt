//! Readers of a VM's windows on shared memory.
ghost use Rattle.std.specs.Prelude.{ℕ, Some, codes, map};
ghost use Rattle.toml.specs.Data.{get_member};
ghost use Rattle.toml.specs.View.{view, table_view};
ghost use Rattle.bao_config.specs.Bounds.{IsInBounds, interrupt};
ghost use Rattle.bao_config.specs.Faults.{faults, number, text, or_shape, or_none, in_j, in_k, at_row};
ghost use Rattle.bao_config.specs.Texts.{is_window_access};
ghost use Rattle.bao_config.specs.Row as rows;
ghost use Rattle.bao_config.specs.KeyTable.{irqs, ipc, ipcs};
ghost use Rattle.bao_config.specs.Spelled.{ipc_of, number_of, numbers_of, tables_of, keys_of, may_write, text_of};
ghost use Rattle.bao_config.specs.Data.{IpcData, ipc_data};
ghost use Rattle.bao_config.specs.Fits.{ListFits, IpcFits};
ghost use Rattle.bao_config.specs.Answer.{Reads};

use crate::bounds::{INTERRUPT, SHARED};
use crate::config::Ipc;
use crate::error::{ConfigError, Spot};
use crate::fields::{find, integer_at, integer_of, only_known, required, str_at, table_of};
use crate::items::{Items, read_items};
use crate::row;
use arrayvec::ArrayVec;
use toml::{Table, Value};

/// Whether a window may be written.
fn read_access(table: &Table, spot: Spot) -> Result<bool, ConfigError>
    ensures { Reads (λ write. write) (λ write. Unit {0}) result
        (or_shape spot (get_member (codes "access") (table_view table.now)) (faults (text is_window_access) spot))
        (may_write (text_of (get_member (codes "access") (table_view table.now)))) }
{
    match str_at(table, "access", spot)? {
        "r" => Ok(false),
        "rw" => Ok(true),
        _ => Err(ConfigError::BadShape { spot }),
    }
}

/// A window's interrupt numbers.
struct Irqs;

impl Items for Irqs {
    type Item = u16;

    ghost Plain = { ℕ };

    ghost plain = { λ x. x };

    ghost Fits = { IsInBounds interrupt };

    ghost faults_at = { λ spot n d. faults (number interrupt) (in_k n (at_row rows.irq spot)) d };

    ghost record_of = { λ d. number_of (Some d) };

    fn read(item: &Value, spot: Spot, n: u8) -> Result<u16, ConfigError> {
        Ok(integer_of(item, INTERRUPT, spot.in_k(row::IRQ, n))? as u16)
    }
}

#[tactic(auto, using(crate::proofs::Lists::map_same), unfolding(crate::specs::KeyTable::irqs))]
fn read_irqs(table: &Table, spot: Spot) -> Result<ArrayVec<u16, 8>, ConfigError>
    ensures { Reads (λ v. v.items) (ListFits 1 8 (IsInBounds interrupt)) result
        (or_shape spot (get_member (codes "irqs") (table_view table.now)) (faults irqs spot))
        (numbers_of (get_member (codes "irqs") (table_view table.now))) }
{
    read_items::<Irqs, 8>(required(table, "irqs", spot)?, 1, spot)
}

#[tactic(auto, using(crate::proofs::Lists::is_first_append), unfolding(crate::specs::KeyTable::ipc))]
fn read_ipc(item: &Value, spot: Spot) -> Result<Ipc, ConfigError>
    ensures { Reads ipc_data IpcFits result
        (faults ipc spot (view item.now))
        (ipc_of (keys_of (Some (view item.now)))) }
{
    let table = table_of(item, spot)?;
    let shmem = integer_at(table, "shmem", SHARED, spot.at_row(row::IPC_SHMEM))?;
    let write = read_access(table, spot.at_row(row::IPC_ACCESS))?;
    let irqs = read_irqs(table, spot.at_row(row::IRQS))?;
    only_known(table, &["shmem", "access", "irqs"], spot)?;
    Ok(Ipc {
        shmem: shmem as u8,
        write,
        irqs,
    })
}

/// A VM's windows.
struct Ipcs;

impl Items for Ipcs {
    type Item = Ipc;

    ghost Plain = { IpcData };

    ghost plain = { ipc_data };

    ghost Fits = { IpcFits };

    ghost faults_at = { λ spot n d. faults ipc (in_j n (at_row rows.ipc spot)) d };

    ghost record_of = { λ d. ipc_of (keys_of (Some d)) };

    fn read(item: &Value, spot: Spot, n: u8) -> Result<Ipc, ConfigError> {
        read_ipc(item, spot.in_j(row::IPC, n))
    }
}

#[tactic(auto, unfolding(crate::specs::KeyTable::ipcs))]
pub(crate) fn read_ipcs(table: &Table, spot: Spot) -> Result<ArrayVec<Ipc, 8>, ConfigError>
    ensures { Reads (λ v. map ipc_data v.items) (ListFits 0 8 IpcFits) result
        (or_none (get_member (codes "ipcs") (table_view table.now)) (faults ipcs spot))
        (tables_of ipc_of (get_member (codes "ipcs") (table_view table.now))) }
{
    match find(table, "ipcs") {
        Some(item) => read_items::<Ipcs, 8>(item, 0, spot),
        None => Ok(ArrayVec::new()),
    }
}
