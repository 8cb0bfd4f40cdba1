ghost use Rattle.std.specs.Prelude.{◌≡◌, ◌+◌, ◌<◌, ◌≤◌, ◌^◌, None, slice_set, length};
ghost use Rattle.std.specs.Bool.{OnTrue};
ghost use Rattle.bao_types.specs.declared.access.Access.TheVariants.{Read, Write, Exec};
ghost use Rattle.pmsa_stage2.specs.Stage2.{stage2};
ghost use Rattle.pmsa_table.specs.Span.{IsSpan};
ghost use Rattle.pmsa_table.specs.Whole.{first_refusal, is_refused};

use crate::cut::spans_of;
use crate::span::Span;
use arrayvec::ArrayVec;
use bao_types::{Access, Region, Verdict};
use std::marker::Model;

/// A refused byte and what the second stage says of it.
#[derive(Clone, Copy, Debug, PartialEq, Eq)]
pub struct Refusal {
    pub at: u64,
    pub verdict: Verdict,
}

/// The EL2 entries of a core with the spans that they cut the address space into. Contracts see the list of the entries.
#[derive(Drop)]
pub struct Table {
    entries: ArrayVec<Region, 32>,
    spans: ArrayVec<Span, 65>,
    /// The span of the last byte that was judged for reading; at first one of no addresses. So for the other two.
    read: Span,
    write: Span,
    exec: Span,
}

impl Model for Table {
    ghost use Rattle.std.specs.Prelude.{List};
    ghost use Rattle.bao_types.specs.declared.region.Region.{Region};
    ghost use Rattle.pmsa_table.specs.Span.{IsSpan};
    ghost use Rattle.pmsa_table.specs.Edges.{IsCompiled};

    ghost Value = { List Region };

    ghost view = { λ t. t.entries.items };

    ghost invariant = { λ t. IsCompiled t.entries.items t.spans.items
        × IsSpan t.entries.items t.read × IsSpan t.entries.items t.write × IsSpan t.entries.items t.exec };
}

impl Table {
    /// The table of these entries.
    pub fn of(entries: &ArrayVec<Region, 32>) -> Table
        ensures { result ≡ entries.now.items }
    {
        let mut own = ArrayVec::new();
        let _ = own.try_extend_from_slice(entries);
        Table::compiled(own)
    }

    fn compiled(entries: ArrayVec<Region, 32>) -> Table
        ensures { result ≡ entries.items }
    {
        let spans = spans_of(&entries);
        Table {
            entries,
            spans,
            read: Span::NONE,
            write: Span::NONE,
            exec: Span::NONE,
        }
    }

    /// The entries, in their order.
    pub fn entries(&self) -> &[Region]
        ensures { result.now ≡ self.now }
    {
        self.entries.as_slice()
    }

    /// Sets one entry.
    pub fn set(&mut self, index: usize, entry: Region)
        requires { index < length self.old }
        ensures { self.new ≡ slice_set self.old index entry }
    {
        let mut entries = ArrayVec::new();
        let _ = entries.try_extend_from_slice(&self.entries);
        entries[index] = entry;
        *self = Table::compiled(entries);
    }

    /// The second stage's verdict on an access to the byte at `at`.
    pub fn judge(&mut self, access: Access, at: u64) -> Verdict
        ensures verdict { result ≡ stage2 self.old access at }
        ensures entries { self.new ≡ self.old }
    {
        self.span(access, at).verdict(access)
    }

    /// The first byte of `count` bytes from `at` on that is refused, in address order; None where all are allowed.
    /// Addresses wrap at 2^64.
    #[inline(always)]
    pub fn judge_all(&mut self, access: Access, at: u64, count: u8) -> Option<Refusal>
        ensures refusal { result ≡ first_refusal (stage2 self.old access) at count }
        ensures entries { self.new ≡ self.old }
    {
        let span = self.span(access, at);
        if u64::from(count) <= span.last - at {
            return refusal_at(span.verdict(access), at, count);
        }
        self.judge_each(access, at, count)
    }

    /// Whether the last hit of this kind of access tells by itself that none of `count` bytes from `at` on is refused. False
    /// says nothing: it is also the answer where the bytes lie in another span, or reach the last byte of this one.
    #[inline(always)]
    pub fn allows(&self, access: Access, at: u64, count: u8) -> bool
        ensures { OnTrue result (first_refusal (stage2 self.now access) at count ≡ None) }
    {
        let hit = self.hit(access);
        if !hit.has(at) || u64::from(count) > hit.last - at {
            return false;
        }
        !is_refused(hit.verdict(access))
    }
}

impl Table {
    /// Judges the bytes one by one.
    #[inline(never)]
    fn judge_each(&mut self, access: Access, at: u64, count: u8) -> Option<Refusal>
        ensures refusal { result ≡ first_refusal (stage2 self.old access) at count }
        ensures entries { self.new ≡ self.old }
    {
        if count == 0 {
            return None;
        }
        let verdict = self.judge(access, at);
        if is_refused(verdict) {
            return Some(Refusal { at, verdict });
        }
        self.judge_each(access, at.wrapping_add(1), count - 1)
    }

    /// The span that has the byte at `at`, which is remembered as the access's last hit.
    #[inline(always)]
    fn span(&mut self, access: Access, at: u64) -> Span
        ensures right { IsSpan self.old result }
        ensures first { result.first ≤ at }
        ensures last { at ≤ result.last }
        ensures entries { self.new ≡ self.old }
    {
        let hit = self.hit(access);
        if hit.has(at) {
            return hit;
        }
        let span = self.find(at);
        self.remember(access, span);
        span
    }

    /// The span of the access's last hit.
    #[inline(always)]
    fn hit(&self, access: Access) -> Span
        ensures { IsSpan self.now result }
    {
        match access {
            Access::Read => self.read,
            Access::Write => self.write,
            Access::Exec => self.exec,
        }
    }

    fn remember(&mut self, access: Access, span: Span)
        requires { IsSpan self.old span }
        ensures { self.new ≡ self.old }
    {
        match access {
            Access::Read => self.read = span,
            Access::Write => self.write = span,
            Access::Exec => self.exec = span,
        }
    }

    #[inline(never)]
    fn find(&self, at: u64) -> Span
        ensures right { IsSpan self.now result }
        ensures first { result.first ≤ at }
        ensures last { at ≤ result.last }
    {
        for span in self.spans.as_slice() {
            if span.has(at) {
                return *span;
            }
        }
        unreachable!()
    }
}

fn is_refused(verdict: Verdict) -> bool
    ensures { result ≡ is_refused verdict }
{
    match verdict {
        Verdict::Allow => false,
        Verdict::Translation | Verdict::Permission => true,
    }
}

/// The first refused one of `count` bytes from `at` on that all have this verdict.
#[tactic(auto, using(crate::proofs::Refusals::all_allowed))]
#[inline(always)]
fn refusal_at(verdict: Verdict, at: u64, count: u8) -> Option<Refusal>
    ensures { result ≡ first_refusal (λ byte. verdict) at count }
{
    if count == 0 {
        return None;
    }
    match verdict {
        Verdict::Allow => None,
        Verdict::Translation | Verdict::Permission => Some(Refusal { at, verdict }),
    }
}
