//! What the crates do together: worked runs, by the definitions and by the program.
#![tactic(auto)]

pub use worked_rows::{parked_row, rows, storing_rows};

#[cfg(test)]
mod answers;
#[cfg(test)]
mod calls;
#[cfg(test)]
mod checks;
#[cfg(test)]
mod devices;
#[cfg(test)]
mod examples;
#[cfg(test)]
mod interrupts;
#[cfg(test)]
mod layouts;
#[cfg(test)]
mod programs;
#[cfg(test)]
mod protection;
#[cfg(test)]
mod refusals;
#[cfg(test)]
mod runs;
#[cfg(test)]
mod samples;
#[cfg(test)]
mod several;
#[cfg(test)]
mod vectors;
mod worked_rows;
