/// What an access does with a byte. An instruction fetch is `Exec`.
#[derive(Clone, Copy, Debug, PartialEq, Eq)]
pub enum Access {
    Read,
    Write,
    Exec,
}

/// What a protection stage says of an access to one byte.
#[derive(Clone, Copy, Debug, PartialEq, Eq)]
pub enum Verdict {
    Allow,
    /// No region, or more than one, is there for the byte.
    Translation,
    /// The byte's one region doesn't give this access.
    Permission,
}

/// What a core may do with a byte of the machine's address space.
#[derive(Clone, Copy, Debug, PartialEq, Eq)]
pub enum Class {
    /// The byte isn't there for the core.
    Nothing,
    /// The byte is the hypervisor's.
    Hyp,
    /// A guest may read the byte. `port` tells a device port from memory.
    Guest { write: bool, exec: bool, port: bool },
}
