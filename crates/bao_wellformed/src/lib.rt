//! The map of a VM, and what a well-formed configuration is.
//!
//! A map says of each byte of the address space what it is to a VM: memory of its own, a port, a window on shared memory, or
//! nothing. It is asked byte by byte here; the packing of a core's protection regions goes over ranges, in a crate above.
#![tactic(auto)]

mod all_rules;
mod byte_rules;
mod checked;
mod claim;
mod ill;
mod law;
mod map;
mod pair_rules;
mod piece;
mod platform_rules;
mod ranges;
mod sample;
mod vm_pair_rules;
mod vm_rules;

pub use all_rules::check;
pub use checked::{CheckError, Checked};
pub use ill::{Ill, NO_RANGE, NONE};
pub use law::{laws_of_least_bytes, laws_of_maps, laws_of_separation, laws_of_windows};
pub use map::{Kind, MAP_ENTRIES, MapEntry, grant, has_core, kind_in, map_of};
pub use sample::rows_of_the_sample;
