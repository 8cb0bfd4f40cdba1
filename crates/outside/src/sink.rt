ghost use Rattle.std.specs.Prelude.{◌≡◌, Option, List, ℕ, [], Some, IsOk, codes};
ghost use Rattle.outside.specs.Sink.{Takes, HasCause};

use std::error::Error;
use std::fmt;

/// Where text is put out.
pub trait Sink {
    /// What the sink tells of what it has taken: nothing, or all bytes since it was made.
    ghost taken: { Self → Option (List ℕ) };

    /// How often a put has failed. It never falls, and stands still at 2^64 - 1.
    ghost faults: { Self → ℕ };

    /// Puts all of `bytes` after what the sink has taken. After a failure it may have taken some first ones of them. A
    /// put of no bytes doesn't fail.
    fn put(&mut self, bytes: &[u8]) -> Result<(), SinkFailed>
        ensures taken { Takes (taken self.old) (taken self.new) bytes.now result }
        ensures cause { HasCause (faults self.old) (faults self.new) result }
        ensures empty { bytes.now ≡ [] → IsOk result };
}

/// A sink didn't take all bytes of a put.
#[derive(Clone, Copy, Debug, PartialEq, Eq)]
pub struct SinkFailed;

impl fmt::Display for SinkFailed {
    ghost output = { λ _. Some (codes "text not taken") };

    fn fmt<W: fmt::Write>(&self, f: &mut fmt::Formatter<W>) -> fmt::Result {
        f.write_str("text not taken")
    }
}

impl Error for SinkFailed {}
