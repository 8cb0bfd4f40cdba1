//! The model of a run: one flat machine of all VMs, which asks the configuration's map for each byte, with neither a
//! hypervisor nor an EL2 entry in it; and the laws of isolation over it, for any number of VMs: one that the
//! configuration keeps apart from the others runs as if it were alone.
//!
//! It shares with the machine of `board` what one step does. Here is no code that a program runs: each law is the contract
//! of a function that does nothing.
#![tactic(auto)]

pub use alone::{
    a_view_has_nothing_else, a_vm_runs_as_if_alone, a_vm_steps_as_if_alone,
    a_well_formed_configuration_keeps_its_vms_apart, inputs_reach_their_vm_alone,
    others_only_write_windows,
};
pub use pair::{
    an_overlap_is_not_apart, the_pair_is_apart, what_the_pair_rings, what_the_pair_sees,
};

mod alone;
mod pair;
