//! A schedule: which core takes a step, and which port is given a byte, in their order.
//!
//! The whole form of a schedule file is read here, in one pass over its bytes, and judged by a well-formed configuration.
//! What an event does to a machine is said in `hypervisor`. A workload of many events, with a configuration and images that
//! go with them, is generated here from one number.
#![tactic(auto)]

mod error;
mod generator;
mod law;
mod line;
mod number;
mod places;
mod progress;
mod read;
mod workload;
mod workload_config;
mod workload_images;

pub use error::ScheduleError;
pub use law::{laws_of_lines, laws_of_workloads};
pub use read::read_schedule;
pub use workload::{Workload, make_workload};
