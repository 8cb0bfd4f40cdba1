//! The system registers of EL1 and EL0, as MRS and MSR reach them: which there are, who may use them, what a read gives,
//! and what a write keeps.
//!
//! The table is one definition of this crate. That an interrupt is taken or ends is told, and is the interrupt
//! interface's to carry out.
#![tactic(auto)]

pub use access::{SysRead, SysWrite, acknowledges, may_read, read_sys, write_answer, write_sys};
pub use moment::Moment;
pub use register::{Register, numbers_are_distinct};
pub use rights::Rights;

mod access;
mod moment;
mod reading;
mod register;
mod rights;
mod writing;
