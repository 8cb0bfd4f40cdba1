//! The interface of a device port: 64 bytes of registers, and one interrupt line that writes and input bytes may
//! raise.
//!
//! `specs/` says what each kind of port does. The kinds themselves are in `port_kinds`, and where a port stands in
//! memory and which line it has is the board's to say.
#![tactic(auto)]

pub use law::kind_stays;
pub use port::{Port, PortKind};

mod law;
mod port;
