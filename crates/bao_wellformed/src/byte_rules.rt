//! The rules that are said of bytes, 20 to 22. The code goes over the bounds of entries, and never over single bytes.
ghost use Rattle.std.specs.Prelude.{◌≡◌, ◌+◌, ◌^◌, ◌<◌, All, fold};
ghost use Rattle.bao_types.specs.ByteRange.{end};
ghost use Rattle.bao_wellformed.specs.ByteRules.{bounds_of, is_ram, least_clash, least_lacking, tried, is_clash, range_of, cover};

use crate::map::{Kind, MapEntry, cover, kind_in, map_of};
use crate::vm_pair_rules::VmPairRule;
use crate::vm_rules::VmRule;
use crate::{Ill, NO_RANGE};
use bao_config::{Config, Vm};
use bao_types::ByteRange;

/// A test of bytes.
trait ByteTest {
    ghost use Rattle.std.specs.Prelude.{◌≡◌, ℕ, Bool};

    ghost test: { Self → ℕ → Bool };

    fn passes(&self, at: u64) -> bool
        ensures { result ≡ test self.now at };
}

/// The lesser of the byte, if it passes, and the one that was found before.
fn tried<T: ByteTest>(test: &T, found: Option<u64>, at: u64) -> Option<u64>
    ensures { result ≡ tried (T.test test.now) found at }
{
    if !test.passes(at) {
        return found;
    }
    match found {
        Some(other) => Some(at.min(other)),
        None => Some(at),
    }
}

/// The least of the bounds of these entries that passes, and the one that was found before.
fn tried_bounds<T: ByteTest>(test: &T, found: Option<u64>, entries: &[MapEntry]) -> Option<u64>
    requires { All (λ entry. end entry.range < 2 ^ 64) entries.now }
    ensures { result ≡ fold (tried (T.test test.now)) found (bounds_of entries.now) }
{
    let mut least = found;
    for entry in entries {
        least = tried(test, least, entry.range.base);
        least = tried(test, least, entry.range.end());
    }
    least
}

/// The test for bytes of a range that aren't RAM, or that aren't executable RAM.
#[derive(Clone, Copy)]
struct Lacking<'a> {
    executable: bool,
    range: ByteRange,
    entries: &'a [MapEntry],
}

impl ByteTest for Lacking<'_> {
    ghost use Rattle.bao_wellformed.specs.ByteRules.{is_lacking};

    ghost test = { λ lacking at. is_lacking lacking.executable lacking.range lacking.entries.now at };

    fn passes(&self, at: u64) -> bool {
        if !self.range.contains(at) {
            return false;
        }
        !is_ram(self.executable, kind_in(self.entries, at))
    }
}

/// Whether the kind is memory of the VM's own, which may be executed if that is asked.
fn is_ram(executable: bool, kind: Kind) -> bool
    ensures { result ≡ is_ram executable kind }
{
    match kind {
        Kind::Ram { write: _, exec } => exec || !executable,
        Kind::Port { id: _ } => false,
        Kind::Window { shmem: _, write: _ } => false,
        Kind::Hole => false,
    }
}

/// The least byte of the range that isn't RAM in the map, or isn't executable RAM.
fn least_lacking(executable: bool, range: ByteRange, entries: &[MapEntry]) -> Option<u64>
    requires range { end range < 2 ^ 64 }
    requires entries { All (λ entry. end entry.range < 2 ^ 64) entries.now }
    ensures { result ≡ least_lacking executable range entries.now }
{
    let test = Lacking {
        executable,
        range,
        entries,
    };
    let mut found = tried(&test, None, 0);
    found = tried(&test, found, range.base);
    found = tried(&test, found, range.end());
    tried_bounds(&test, found, entries)
}

/// 20: the place of a VM is RAM in its map.
pub(crate) struct PlaceIsRam;

impl VmRule for PlaceIsRam {
    ghost use Rattle.bao_wellformed.specs.ByteRules.{place_not_ram};

    ghost breaks = { place_not_ram };

    fn first_break(config: &Config, place: u8, vm: &Vm) -> Option<Ill> {
        let entries = map_of(config, vm);
        match least_lacking(false, vm.place, entries.as_slice()) {
            Some(base) => Some(Ill {
                vm: place,
                first: vm.place,
                second: ByteRange { base, size: 1 },
                ..Ill::of(20)
            }),
            None => None,
        }
    }
}

/// 21: the first instruction of a VM is executable RAM in its map.
pub(crate) struct StartIsExecutable;

impl VmRule for StartIsExecutable {
    ghost use Rattle.bao_wellformed.specs.ByteRules.{start_not_executable};

    ghost breaks = { start_not_executable };

    fn first_break(config: &Config, place: u8, vm: &Vm) -> Option<Ill> {
        let entries = map_of(config, vm);
        let instruction = ByteRange {
            base: vm.start,
            size: 4,
        };
        match least_lacking(true, instruction, entries.as_slice()) {
            Some(base) => Some(Ill {
                vm: place,
                second: ByteRange { base, size: 1 },
                ..Ill::of(21)
            }),
            None => None,
        }
    }
}

/// The test for bytes that two VMs have, and not both as a window on one shared memory.
#[derive(Clone, Copy)]
struct Clash<'a> {
    ones: &'a [MapEntry],
    others: &'a [MapEntry],
}

impl ByteTest for Clash<'_> {
    ghost use Rattle.bao_wellformed.specs.ByteRules.{is_clash, kind_in};

    ghost test = { λ clash at. is_clash (kind_in clash.ones.now at) (kind_in clash.others.now at) };

    fn passes(&self, at: u64) -> bool {
        is_clash(kind_in(self.ones, at), kind_in(self.others, at))
    }
}

/// Whether two VMs may not have a byte as these.
fn is_clash(one: Kind, other: Kind) -> bool
    ensures { result ≡ is_clash one other }
{
    match (one, other) {
        (Kind::Hole, _) => false,
        (_, Kind::Hole) => false,
        (
            Kind::Window { shmem, write: _ },
            Kind::Window {
                shmem: same,
                write: _,
            },
        ) => shmem != same,
        _ => true,
    }
}

/// The least byte that two VMs have, and not both as a window on one shared memory.
fn least_clash(ones: &[MapEntry], others: &[MapEntry]) -> Option<u64>
    requires ones { All (λ entry. end entry.range < 2 ^ 64) ones.now }
    requires others { All (λ entry. end entry.range < 2 ^ 64) others.now }
    ensures { result ≡ least_clash ones.now others.now }
{
    let test = Clash { ones, others };
    let mut found = tried(&test, None, 0);
    found = tried_bounds(&test, found, ones);
    tried_bounds(&test, found, others)
}

/// 22: what two VMs both have is a window on one shared memory.
pub(crate) struct MapsApart;

impl VmPairRule for MapsApart {
    ghost use Rattle.bao_wellformed.specs.ByteRules.{clashes};

    ghost breaks = { clashes };

    fn first_break(config: &Config, place: u8, vm: &Vm, later: u8, other: &Vm) -> Option<Ill> {
        let ones = map_of(config, vm);
        let others = map_of(config, other);
        match least_clash(ones.as_slice(), others.as_slice()) {
            Some(at) => Some(Ill {
                vm: later,
                item: place,
                first: covering_range(ones.as_slice(), at),
                second: covering_range(others.as_slice(), at),
                ..Ill::of(22)
            }),
            None => None,
        }
    }
}

/// The range of the last entry that contains the byte.
fn covering_range(entries: &[MapEntry], at: u64) -> ByteRange
    ensures { result ≡ range_of (cover entries.now at) }
{
    match cover(entries, at) {
        Some(entry) => entry.range,
        None => NO_RANGE,
    }
}
