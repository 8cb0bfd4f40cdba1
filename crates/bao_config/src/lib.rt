//! From the bytes of a configuration file to a `Config`, or to the first fault of the file.
//!
//! A configuration is a TOML document with the keys that `docs/configuration.md` lists. This crate judges each
//! key by itself: its kind, its bounds, its length. What the parts say together, as that two VMs have separate
//! memory, is judged by a crate above.
#![tactic(auto)]

pub mod bounds;
mod config;
mod dev;
mod document;
mod error;
mod fields;
mod ipc;
mod items;
mod names;
mod platform;
mod range;
mod region;
pub mod row;
mod shmem;
mod vm;

pub use config::{Config, Dev, Ipc, MapRegion, Platform, PortPlace, Shmem, Vm};
pub use document::read_config;
pub use error::{ConfigError, PATH_LIMIT, Spot};
pub use names::{is_file_name, is_name};
