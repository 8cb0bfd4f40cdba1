use bao_types::Verdict;

/// The first byte of an access, in address order, that a stage of protection refuses.
#[derive(Clone, Copy, Debug, PartialEq, Eq)]
pub struct Fault {
    /// The second stage refuses it, and not the first.
    pub stage2: bool,
    /// Why; not Allow.
    pub verdict: Verdict,
    /// Its address.
    pub at: u64,
}

/// What an access comes to when both stages have judged each of its bytes.
#[derive(Clone, Copy, Debug, PartialEq, Eq)]
pub enum Judged {
    /// All are allowed and none is a port's: the number that they are, the least byte first.
    Memory(u128),
    /// All are allowed, and some are a port's: the number that is read, element by element, the first of them lowest. For
    /// a store it means nothing.
    Port(u128),
    /// One is refused.
    Refused(Fault),
}
