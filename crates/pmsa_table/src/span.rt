ghost use Rattle.std.specs.Prelude.{◌≡◌, ◌≤◌};
ghost use Rattle.bao_types.specs.declared.access.Access.TheVariants.{Read, Write, Exec};
ghost use Rattle.pmsa_stage2.specs.Stage2.{stage2};
ghost use Rattle.pmsa_table.specs.Span.{has, span_verdict};

use bao_types::{Access, Region, Verdict};
use pmsa_stage2::judge2;

/// The addresses from `first` to `last`, both included, with one verdict for each kind of access.
#[derive(Clone, Copy, Debug, PartialEq, Eq)]
pub struct Span {
    pub first: u64,
    pub last: u64,
    pub read: Verdict,
    pub write: Verdict,
    pub exec: Verdict,
}

impl Span {
    /// No addresses.
    pub const NONE: Span = Span {
        first: 1,
        last: 0,
        read: Verdict::Translation,
        write: Verdict::Translation,
        exec: Verdict::Translation,
    };
}

impl Default for Span {
    fn default() -> Span {
        Span::NONE
    }
}

impl Span {
    /// The span of these addresses with the verdicts on its last byte.
    pub fn judged_at_last(entries: &[Region], first: u64, last: u64) -> Span
        ensures first { result.first ≡ first }
        ensures last { result.last ≡ last }
        ensures read { result.read ≡ stage2 entries.now Read last }
        ensures write { result.write ≡ stage2 entries.now Write last }
        ensures exec { result.exec ≡ stage2 entries.now Exec last }
    {
        Span {
            first,
            last,
            read: judge2(entries, Access::Read, last),
            write: judge2(entries, Access::Write, last),
            exec: judge2(entries, Access::Exec, last),
        }
    }

    /// Whether the byte at `at` is one of the span's.
    #[inline(always)]
    pub fn has(&self, at: u64) -> bool
        ensures { result ≡ has self.now at }
    {
        self.first <= at && at <= self.last
    }

    /// What the span says of an access.
    #[inline(always)]
    pub fn verdict(&self, access: Access) -> Verdict
        ensures { result ≡ span_verdict self.now access }
    {
        match access {
            Access::Read => self.read,
            Access::Write => self.write,
            Access::Exec => self.exec,
        }
    }
}
