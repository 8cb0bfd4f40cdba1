//! The address space of one core as classes of bytes: ranges are laid over one another, and the maximal runs of
//! bytes of one class are read off.
//!
//! Which ranges a configuration asks for is said by the crates above, and so is how runs become protection
//! regions.
#![tactic(auto)]

pub use law::laws_of_runs;
pub use ranges::Ranges;
pub use run::Run;

mod law;
mod layers;
mod ranges;
mod run;
#[cfg(test)]
mod tests;
