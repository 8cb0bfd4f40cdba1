//! The registers of one Armv8-R AArch64 core: the general registers, PSTATE, the system registers that are kept, and
//! the registers of protection, timer and interrupt interface.
//!
//! What an instruction, an exception or a system register does with them is said by the crates above; here are the
//! plain reads and writes that depend on PSTATE or on register 31.
#![tactic(auto)]

pub use mode::Mode;
pub use registers::{Core, SysRegs};

mod mode;
pub mod pstate;
mod registers;
#[cfg(test)]
mod tests;
