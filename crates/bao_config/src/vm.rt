//! Readers of the VMs.
ghost use Rattle.std.specs.Prelude.{ℕ, Some, IsTrue, codes, map};
ghost use Rattle.toml.specs.Data.{get_member};
ghost use Rattle.toml.specs.View.{view, table_view};
ghost use Rattle.bao_config.specs.Bounds.{IsInBounds, core};
ghost use Rattle.bao_config.specs.Faults.{faults, number, text, or_shape, or_none, in_j, at_row};
ghost use Rattle.bao_config.specs.Texts.{is_name, is_file_name};
ghost use Rattle.bao_config.specs.Row as rows;
ghost use Rattle.bao_config.specs.KeyTable.{range, vm_cores, guards, vm, vms};
ghost use Rattle.bao_config.specs.Spelled.{range_of, vm_of, number_of, numbers_of, tables_of, keys_of, text_of};
ghost use Rattle.bao_config.specs.Data.{vm_data};
ghost use Rattle.bao_config.specs.Fits.{ListFits, RangeFits, VmFits};
ghost use Rattle.bao_config.specs.Answer.{Reads};

use crate::bounds::{BASE, CORE, INSTRUCTION, SIZE};
use crate::config::Vm;
use crate::dev::read_devs;
use crate::error::{ConfigError, Spot};
use crate::fields::{
    find, integer_at, integer_of, items_of, only_known, required, str_at, table_of,
};
use crate::ipc::read_ipcs;
use crate::items::{Items, read_items};
use crate::names::{is_file_name, is_name};
use crate::range::read_range;
use crate::region::read_regions;
use crate::row;
use arrayvec::ArrayVec;
use bao_types::{ByteRange, Label};
use std::alloc::Global;
use toml::{Table, Value};

fn read_name(alloc: Global, table: &Table, spot: Spot) -> Result<Label, ConfigError>
    ensures { Reads (λ name. name) (λ name. IsTrue (is_name name)) result
        (or_shape spot (get_member (codes "name") (table_view table.now)) (faults (text is_name) spot))
        (text_of (get_member (codes "name") (table_view table.now))) }
{
    let name = str_at(table, "name", spot)?;
    if !is_name(name) {
        return Err(ConfigError::BadShape { spot });
    }
    Ok(Label::new(String::from_str(alloc, name)?))
}

fn read_image(alloc: Global, table: &Table, spot: Spot) -> Result<Label, ConfigError>
    ensures { Reads (λ image. image) (λ image. IsTrue (is_file_name image)) result
        (or_shape spot (get_member (codes "image") (table_view table.now)) (faults (text is_file_name) spot))
        (text_of (get_member (codes "image") (table_view table.now))) }
{
    let image = str_at(table, "image", spot)?;
    if !is_file_name(image) {
        return Err(ConfigError::BadShape { spot });
    }
    Ok(Label::new(String::from_str(alloc, image)?))
}

/// A VM's cores.
struct Cores;

impl Items for Cores {
    type Item = u8;

    ghost Plain = { ℕ };

    ghost plain = { λ x. x };

    ghost Fits = { IsInBounds core };

    ghost faults_at = { λ spot n d. faults (number core) (in_j n (at_row rows.vm_core spot)) d };

    ghost record_of = { λ d. number_of (Some d) };

    fn read(item: &Value, spot: Spot, n: u8) -> Result<u8, ConfigError> {
        Ok(integer_of(item, CORE, spot.in_j(row::VM_CORE, n))? as u8)
    }
}

#[tactic(auto, using(crate::proofs::Lists::map_same), unfolding(crate::specs::KeyTable::vm_cores))]
fn read_cores(table: &Table, spot: Spot) -> Result<ArrayVec<u8, 8>, ConfigError>
    ensures { Reads (λ v. v.items) (ListFits 1 8 (IsInBounds core)) result
        (or_shape spot (get_member (codes "cores") (table_view table.now)) (faults vm_cores spot))
        (numbers_of (get_member (codes "cores") (table_view table.now))) }
{
    read_items::<Cores, 8>(required(table, "cores", spot)?, 1, spot)
}

/// A VM's guards.
struct Guards;

impl Items for Guards {
    ghost use Rattle.bao_types.specs.declared.range.ByteRange.{ByteRange};

    type Item = ByteRange;

    ghost Plain = { ByteRange };

    ghost plain = { λ x. x };

    ghost Fits = { RangeFits };

    ghost faults_at = { λ spot n d. faults (range rows.guard_base rows.guard_size) (in_j n (at_row rows.guard spot)) d };

    ghost record_of = { λ d. range_of (keys_of (Some d)) };

    fn read(item: &Value, spot: Spot, n: u8) -> Result<ByteRange, ConfigError> {
        read_range(
            item,
            row::GUARD_BASE,
            row::GUARD_SIZE,
            spot.in_j(row::GUARD, n),
        )
    }
}

#[tactic(auto, using(crate::proofs::Lists::map_same), unfolding(crate::specs::KeyTable::guards))]
fn read_guards(table: &Table, spot: Spot) -> Result<ArrayVec<ByteRange, 16>, ConfigError>
    ensures { Reads (λ v. v.items) (ListFits 0 16 RangeFits) result
        (or_none (get_member (codes "guards") (table_view table.now)) (faults guards spot))
        (tables_of range_of (get_member (codes "guards") (table_view table.now))) }
{
    match find(table, "guards") {
        Some(item) => read_items::<Guards, 16>(item, 0, spot),
        None => Ok(ArrayVec::new()),
    }
}

#[tactic(auto, using(crate::proofs::Lists::is_first_append), unfolding(crate::specs::KeyTable::vm))]
fn read_vm(alloc: Global, item: &Value, spot: Spot) -> Result<Vm, ConfigError>
    ensures { Reads vm_data VmFits result
        (faults vm spot (view item.now))
        (vm_of (keys_of (Some (view item.now)))) }
{
    let table = table_of(item, spot)?;
    let name = read_name(alloc, table, spot.at_row(row::VM_NAME))?;
    let image = read_image(alloc, table, spot.at_row(row::VM_IMAGE))?;
    let base = integer_at(table, "load", BASE, spot.at_row(row::VM_LOAD))?;
    let size = integer_at(table, "room", SIZE, spot.at_row(row::VM_ROOM))?;
    let start = integer_at(table, "entry", INSTRUCTION, spot.at_row(row::VM_ENTRY))?;
    let cores = read_cores(table, spot.at_row(row::VM_CORES))?;
    let regions = read_regions(table, spot.at_row(row::REGIONS))?;
    let devs = read_devs(table, spot.at_row(row::DEVS))?;
    let ipcs = read_ipcs(table, spot.at_row(row::IPCS))?;
    let guards = read_guards(table, spot.at_row(row::GUARDS))?;
    only_known(
        table,
        &[
            "name", "image", "load", "room", "entry", "cores", "regions", "devs", "ipcs", "guards",
        ],
        spot,
    )?;
    Ok(Vm {
        name,
        image,
        place: ByteRange { base, size },
        start,
        cores,
        regions,
        devs,
        ipcs,
        guards,
    })
}

#[tactic(auto, unfolding(crate::specs::KeyTable::vms))]
pub(crate) fn read_vms(alloc: Global, table: &Table, spot: Spot) -> Result<Vec<Vm>, ConfigError>
    ensures { Reads (λ v. map vm_data v.items) (ListFits 1 8 VmFits) result
        (or_shape spot (get_member (codes "vm") (table_view table.now)) (faults vms spot))
        (tables_of vm_of (get_member (codes "vm") (table_view table.now))) }
{
    let item = required(table, "vm", spot)?;
    let items = items_of(item, 1, 8, spot)?;
    let mut vms = Vec::new(alloc);
    for (i, item) in items.iter().enumerate() {
        vms.push(read_vm(alloc, item, spot.in_i(row::VM, i as u8))?)?;
    }
    Ok(vms)
}
