//! The interleaving of the cores: a whole run takes the events of a schedule one after another, in their order.
//!
//! On every board that meets `Board`, a run is the fold of the model's step, and ends for each VM where the VM's run alone
//! ends. What one event does is in `hypervisor`. Nothing here takes memory.
#![tactic(auto)]

pub use fold::run;

mod fold;
