ghost use Rattle.std.specs.Prelude.{◌≡◌, ℕ, ◌+◌, ◌*◌, ◌<◌, ◌≤◌, ◌++◌, true, length, All};
ghost use Rattle.std.specs.List.Sorted.{IsNonDecreasing, IsPermutation};
ghost use Rattle.std.specs.List.{list_any};
ghost use Rattle.bao_types.specs.ByteRange.{address_space_end};
ghost use Rattle.pmsa_table.specs.Span.{has, IsSpan};
ghost use Rattle.pmsa_table.specs.Edges.{edges_of, all_edges, IsBeside, IsCompiled};

use crate::span::Span;
use arrayvec::ArrayVec;
use bao_types::Region;

/// The spans of a list of entries, in address order.
pub fn spans_of(entries: &[Region]) -> ArrayVec<Span, 65>
    requires { length entries.now ≤ 32 }
    ensures { IsCompiled entries.now result.items }
{
    let mut edges = collect_edges(entries);
    sort_edges(&mut edges);
    cut_at(entries, edges.as_slice())
}

fn sort_edges(edges: &mut ArrayVec<u64, 64>)
    ensures permutation { IsPermutation edges.old.items edges.new.items }
    ensures sorted { IsNonDecreasing edges.new.items }
{
    edges.sort_unstable();
}

/// The edges of the entries that are on.
fn collect_edges(entries: &[Region]) -> ArrayVec<u64, 64>
    requires { length entries.now ≤ 32 }
    ensures items { result.items ≡ all_edges entries.now }
    ensures low { All (λ edge. edge < address_space_end) result.items }
{
    let mut edges = ArrayVec::new();
    for entry in entries {
        push_edges(&mut edges, entry);
    }
    edges
}

fn push_edges(edges: &mut ArrayVec<u64, 64>, entry: &Region)
    requires { length edges.old.items + 2 ≤ 64 }
    ensures items { edges.new.items ≡ edges.old.items ++ edges_of entry.now }
    ensures len { length edges.new.items ≤ length edges.old.items + 2 }
    ensures low { All (λ edge. edge < address_space_end) edges.old.items → All (λ edge. edge < address_space_end) edges.new.items }
{
    if entry.is_enabled() {
        edges.push(entry.first_byte().saturating_sub(1));
        edges.push(entry.last_byte());
    }
}

/// A span up to each edge, and one for the rest of the address space.
fn cut_at(entries: &[Region], edges: &[u64]) -> ArrayVec<Span, 65>
    requires few { length edges.now ≤ 64 }
    requires low { All (λ edge. edge < address_space_end) edges.now }
    requires sorted { IsNonDecreasing edges.now }
    requires complete { (first last : ℕ) → All (IsBeside first last) edges.now → All (IsBeside first last) (all_edges entries.now) }
    ensures { IsCompiled entries.now result.items }
{
    let mut spans = ArrayVec::new();
    let mut first = 0;
    for edge in edges {
        first = cut_one(&mut spans, entries, edges, first, *edge);
    }
    spans.push(Span::judged_at_last(entries, first, u64::MAX));
    spans
}

/// The span from an address to an edge, where there is one; the answer is the first address after it.
fn cut_one(
    spans: &mut ArrayVec<Span, 65>,
    entries: &[Region],
    edges: &[u64],
    first: u64,
    edge: u64,
) -> u64
    requires room { length spans.old.items < 65 }
    requires low { edge < address_space_end }
    requires beside { All (IsBeside first edge) edges.now }
    requires complete { (first last : ℕ) → All (IsBeside first last) edges.now → All (IsBeside first last) (all_edges entries.now) }
    ensures len { length spans.new.items ≤ length spans.old.items + 1 }
    ensures right { All (IsSpan entries.now) spans.old.items → All (IsSpan entries.now) spans.new.items }
    ensures whole { ((at : ℕ) → at < first → list_any (λ span. has span at) spans.old.items ≡ true) →
        (at : ℕ) → at < result → list_any (λ span. has span at) spans.new.items ≡ true }
    ensures grows { first ≤ result }
    ensures past { edge < result }
    ensures bound { first ≤ address_space_end → result ≤ address_space_end }
{
    if edge < first {
        return first;
    }
    spans.push(Span::judged_at_last(entries, first, edge));
    edge + 1
}
