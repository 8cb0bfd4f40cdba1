//! The packing of a core: the least list of EL2 protection regions that gives each byte to the core as the map says.
//!
//! A core has the hypervisor's range, and the map of the VM that it belongs to. Bytes of one class that follow one another are
//! one run, and each run is one entry. That the runs are maximal is said by the crate `region_list` below.
#![tactic(auto)]

mod class;
mod entries;
mod law;
mod packing;
mod runs;

pub use entries::Plan;
pub use law::laws_of_packing;
pub use packing::{PackError, pack};
