//! What a VM asks of the hypervisor by HVC and SMC with immediate 0: the doorbell of a shared memory, and five calls of
//! PSCI (Arm DEN 0022). A call is decided here and carried out above: whether it is stepped past, whose interrupt becomes
//! pending and how a core is reset isn't said here.
#![tactic(auto)]

pub use calling::{NOT_SUPPORTED, call};
pub use law::{a_call_is_its_vms_alone, outcomes_are_lawful};
pub use outcome::Outcome;
pub use power::Power;
pub use service::{Service, service_of};

mod calling;
mod law;
mod outcome;
mod power;
mod service;
