//! The machine as the hypervisor sees it: the trait `Board`, and the definitions that its calls and the whole program
//! are held to, in `specs/`.
//!
//! The machine's EL2 entries decide what a guest may touch. Nothing here knows a configuration or a VM: the model of
//! those is in `vm_model`, and shares with the machine what one step does.
#![tactic(auto)]

pub use board::{Board, CONSOLES, Exit};
pub use judged::{Fault, Judged};
pub use laws::{
    a_fault_is_of_the_first_refused_byte, a_step_disturbs_nothing_else,
    a_step_observes_nothing_else,
};
pub use view::CoreView;

mod board;
mod judged;
mod laws;
mod view;
