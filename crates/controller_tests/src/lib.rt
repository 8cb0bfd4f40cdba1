//! Tests of the emulated interrupt controller by the whole program: guests that program it by loads and stores, send
//! interrupts, and take them.
//!
//! The crate has no other code. It stands apart from `system_tests` so that its proof runs beside that one's.
#![tactic(auto)]

#[cfg(test)]
mod accesses;
#[cfg(test)]
mod boards;
#[cfg(test)]
mod drivers;
#[cfg(test)]
mod forms;
#[cfg(test)]
mod orders;
#[cfg(test)]
mod senders;
#[cfg(test)]
mod side_by_side;
#[cfg(test)]
mod touches;
