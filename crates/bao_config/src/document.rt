//! The whole document.
ghost use Rattle.std.specs.Prelude.{◌≡◌, ◌≢◌, Ok, Err, IfOk, IfErr};
ghost use Rattle.toml.specs.View.{table_view};
ghost use Rattle.bao_config.specs.declared.error.ConfigError.TheVariants.{OutOfMemory};
ghost use Rattle.bao_config.specs.Spelled.{config_of};
ghost use Rattle.bao_config.specs.Config.{config_data};
ghost use Rattle.bao_config.specs.Fits.{ConfigFits};
ghost use Rattle.bao_config.specs.Answer.{Reads, document_faults, spelled};

use crate::bounds::VERSION;
use crate::config::Config;
use crate::error::{ConfigError, Spot};
use crate::fields::{integer_at, only_known, required};
use crate::platform::read_platform;
use crate::range::read_range;
use crate::shmem::read_shmems;
use crate::vm::read_vms;
use std::alloc::Global;
use toml::Table;

/// The document itself.
const DOCUMENT: Spot = Spot {
    row: row::DOCUMENT,
    i: 0,
    j: 0,
    k: 0,
};

use crate::row;

#[tactic(auto, using(crate::proofs::Lists::is_first_append), unfolding(crate::specs::KeyTable::document))]
fn read_document(alloc: Global, table: &Table) -> Result<Config, ConfigError>
    ensures { Reads config_data ConfigFits result
        (document_faults (table_view table.now))
        (config_of (table_view table.now)) }
{
    let version = integer_at(table, "version", VERSION, DOCUMENT.at_row(row::VERSION))?;
    let platform = read_platform(
        required(table, "platform", DOCUMENT.at_row(row::PLATFORM))?,
        DOCUMENT.at_row(row::PLATFORM),
    )?;
    let hyp = read_range(
        required(table, "hypervisor", DOCUMENT.at_row(row::HYPERVISOR))?,
        row::HYPERVISOR_BASE,
        row::HYPERVISOR_SIZE,
        DOCUMENT.at_row(row::HYPERVISOR),
    )?;
    let shmems = read_shmems(table, DOCUMENT.at_row(row::SHMEMS))?;
    let vms = read_vms(alloc, table, DOCUMENT.at_row(row::VMS))?;
    only_known(
        table,
        &["version", "platform", "hypervisor", "shmem", "vm"],
        DOCUMENT,
    )?;
    Ok(Config {
        version: version as u8,
        platform,
        hyp,
        shmems,
        vms,
    })
}

/// Reads a configuration: the record that the bytes spell, or why they spell none. The answer depends on the bytes
/// alone, unless memory runs out.
pub fn read_config(alloc: Global, bytes: &[u8]) -> Result<Config, ConfigError>
    ensures ok { IfOk result (λ config. spelled bytes.now ≡ Ok (config_data config)) }
    ensures err { IfErr result (λ e. e ≢ OutOfMemory → spelled bytes.now ≡ Err e) }
{
    let Ok(text) = std::str::from_utf8(bytes) else {
        return Err(ConfigError::BadToml);
    };
    let table = match toml::table_from_str(alloc, text) {
        Ok(table) => table,
        Err(e) if e.is_memory() => return Err(ConfigError::OutOfMemory),
        Err(_) => return Err(ConfigError::BadToml),
    };
    read_document(alloc, &table)
}
