//! Which byte of an access is refused first, by the EL1 regions of its core and by its EL2 entries.
ghost use Rattle.std.specs.Prelude.{◌≡◌, None, true, false};
ghost use Rattle.std.specs.Bool.{OnTrue};
ghost use Rattle.bao_types.specs.declared.access.Verdict.TheVariants.{Allow};
ghost use Rattle.board.specs.Stage.{by_entries, by_regions, is_allowed};
ghost use Rattle.board.specs.Judge.{fault_or, first_fault};

use a64_state::Core;
use bao_types::{Access, Verdict};
use board::Fault;
use pmsa_stage1::{is_on, judge1};
use pmsa_table::Table;

/// The first byte that a stage refuses, of this many from `at` on. Addresses wrap at 2^64.
#[inline(always)]
pub(crate) fn first_fault(
    core: &Core,
    table: &mut Table,
    access: Access,
    at: u64,
    count: u8,
) -> Option<Fault>
    ensures fault { result ≡ first_fault (by_regions core.now) (by_entries table.old) access at count }
    ensures entries { table.new ≡ table.old }
{
    if passes_at_once(core, table, access, at, count) {
        return None;
    }
    first_of(core, table, access, at, count)
}

/// Whether one look at the last hit tells that no stage refuses one of this many bytes from `at` on: the first stage is off, and
/// the second allows all of them. False says nothing.
#[tactic(auto, using(crate::proofs::Judged::none_by_second))]
#[inline(always)]
pub(crate) fn passes_at_once(core: &Core, table: &Table, access: Access, at: u64, count: u8) -> bool
    ensures { OnTrue result (first_fault (by_regions core.now) (by_entries table.now) access at count ≡ None) }
{
    if is_on(core.sys.sctlr) {
        return false;
    }
    table.allows(access, at, count)
}

/// The first byte that a stage refuses, where one look at the last hit doesn't tell.
#[tactic(auto, using(crate::proofs::Judged::off))]
#[inline(never)]
fn first_of(core: &Core, table: &mut Table, access: Access, at: u64, count: u8) -> Option<Fault>
    ensures fault { result ≡ first_fault (by_regions core.now) (by_entries table.old) access at count }
    ensures entries { table.new ≡ table.old }
{
    if is_on(core.sys.sctlr) {
        return judge_each(core, table, access, at, count);
    }
    // The first stage allows all, and the second judges by spans.
    second_fault(table, access, at, count)
}

/// The first byte that the second stage refuses.
#[tactic(auto, using(crate::proofs::Judged::second_some, crate::proofs::Judged::second_none))]
#[inline(always)]
fn second_fault(table: &mut Table, access: Access, at: u64, count: u8) -> Option<Fault>
    ensures fault { result ≡ first_fault (λ access at. Allow) (by_entries table.old) access at count }
    ensures entries { table.new ≡ table.old }
{
    match table.judge_all(access, at, count) {
        Some(refusal) => Some(Fault {
            stage2: true,
            verdict: refusal.verdict,
            at: refusal.at,
        }),
        None => None,
    }
}

/// Judges the bytes one by one.
#[tactic(auto, using(crate::proofs::Judged::decided, crate::proofs::Judged::left_to_later))]
#[inline(never)]
fn judge_each(core: &Core, table: &mut Table, access: Access, at: u64, count: u8) -> Option<Fault>
    ensures fault { result ≡ first_fault (by_regions core.now) (by_entries table.old) access at count }
    ensures entries { table.new ≡ table.old }
{
    if count == 0 {
        return None;
    }
    match judge_byte(core, table, access, at) {
        Some(fault) => Some(fault),
        None => judge_each(core, table, access, at.wrapping_add(1), count - 1),
    }
}

/// Judges one byte, by the first stage and then by the second.
#[tactic(auto, using(crate::proofs::Judged::refused, crate::proofs::Judged::passed))]
fn judge_byte(core: &Core, table: &mut Table, access: Access, at: u64) -> Option<Fault>
    ensures fault { result ≡ fault_or false (by_regions core.now access at) at (fault_or true (by_entries table.old access at) at None) }
    ensures entries { table.new ≡ table.old }
{
    let first = judge1(&core.regions, core.sys.sctlr, core.level(), access, at);
    if !is_allowed(first) {
        return Some(Fault {
            stage2: false,
            verdict: first,
            at,
        });
    }
    let second = table.judge(access, at);
    if !is_allowed(second) {
        return Some(Fault {
            stage2: true,
            verdict: second,
            at,
        });
    }
    None
}

fn is_allowed(verdict: Verdict) -> bool
    ensures { result ≡ is_allowed verdict }
{
    match verdict {
        Verdict::Allow => true,
        Verdict::Translation | Verdict::Permission => false,
    }
}
