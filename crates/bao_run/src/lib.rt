//! The top call of the program: it reads the words and the files, boots the machine, runs the schedule and writes the
//! report.
#![tactic(auto)]

mod config;
mod ending;
mod fetch;
mod images;
mod input;
mod sure;
mod top;
mod words;

pub use sure::complete_over_a_sure_shelf;
pub use top::run_bao;
