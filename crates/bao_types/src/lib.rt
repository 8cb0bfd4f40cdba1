//! The plain types that the machine and the hypervisor share: byte ranges, protection regions, the
//! registers of timer and interrupt interface, and the shape of a board; and the arithmetic that
//! instruction words are made of: bit fields, sums with their flags, and bitmask immediates.
//!
//! There is no other behaviour here but what a type says about itself. Which accesses a list of regions
//! allows is decided by the crates of the two protection stages.
#![tactic(auto)]

pub use access::{Access, Class, Verdict};
pub use add::add_carry;
pub use bits::field;
pub use controller::{FRAME_SIZE, ID_END, REDISTRIBUTOR_SIZE};
pub use interface::{IfaceRegs, ListReg, TimerRegs};
pub use label::Label;
pub use law::laws_of_ranges;
pub use mask::bitmask;
pub use memory::OutOfMemory;
pub use range::{ADDRESS_SPACE_END, ByteRange};
pub use region::{BASE_MASK, GRANULE, LIMIT_MASK, NO_REGION, Region, RegionFile};
pub use region_match::RegionMatch;
pub use shape::{CorePlace, EVENT_LIMIT, MEMORY_LIMIT, PORT_SIZE, PortSpot, Shape, is_port};
pub use sum::Sum;
pub use sys_id::SysId;
pub use weight::weight_after;

mod access;
mod add;
mod bits;
mod controller;
mod interface;
mod label;
mod law;
mod mask;
mod memory;
mod range;
mod region;
mod region_match;
mod shape;
mod sum;
mod sys_id;
#[cfg(test)]
mod tests;
mod weight;
