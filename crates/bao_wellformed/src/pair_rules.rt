//! The rules on each two items of a list.
ghost use Rattle.std.specs.Prelude.{◌≡◌, ◌+◌, ◌^◌, ◌<◌, length, map, filter};
ghost use Rattle.bao_config.specs.Config.{config_data};
ghost use Rattle.bao_wellformed.specs.Break.{first, pairs};
ghost use Rattle.bao_wellformed.specs.Rules.{rule_4, rule_8};

use crate::Ill;
use crate::ranges::port_range;
use bao_config::{Config, PortPlace, Shmem};

/// A rule on each two items of a list.
pub(crate) trait PairRule<T> {
    ghost use Rattle.std.specs.Prelude.{◌≡◌, Bool, if◌then◌else◌, Some, None};
    ghost use Rattle.bao_wellformed.specs.declared.ill.Ill.{Ill};

    /// Whether an item and a later one break the rule.
    ghost is_broken: { Self → T → T → Bool };

    /// What is said of them then.
    ghost report: { Self → T → T → Ill };

    fn judge(&self, one: &T, other: &T) -> Option<Ill>
        ensures { result ≡ (if is_broken self.now one.now other.now
            then Some (report self.now one.now other.now) else None) };
}

/// The first break of the rule: the one of the least earlier item, and for that of the least later item.
pub(crate) fn first_of_pairs<T, R: PairRule<T>>(rule: &R, items: &[T]) -> Option<Ill>
    requires { length items.now < 2 ^ 63 }
    ensures { result ≡ first (map (λ (one, other). R.report rule.now one other)
        (filter (λ (one, other). R.is_broken rule.now one other) (pairs items.now))) }
{
    for (i, one) in items.iter().enumerate() {
        let (_, later) = items.split_at(i + 1);
        let found = first_with(rule, one, later);
        if found.is_some() {
            return found;
        }
    }
    None
}

/// The first break of the rule by an item with one after it.
fn first_with<T, R: PairRule<T>>(rule: &R, one: &T, later: &[T]) -> Option<Ill>
    ensures { result ≡ first (map (λ (one, other). R.report rule.now one other)
        (filter (λ (one, other). R.is_broken rule.now one other) (map (λ other. (one.now, other)) later.now))) }
{
    for other in later {
        let found = rule.judge(one, other);
        if found.is_some() {
            return found;
        }
    }
    None
}

/// 4: no two ports have one id or one interrupt number.
pub(crate) fn rule_4(config: &Config) -> Option<Ill>
    ensures { result ≡ first (rule_4 (config_data config.now)) }
{
    first_of_pairs(&PortsDiffer, config.platform.ports.as_slice())
}

struct PortsDiffer;

impl PairRule<PortPlace> for PortsDiffer {
    ghost use Rattle.std.specs.Prelude.{◌==◌, ◌||◌};
    ghost use Rattle.bao_wellformed.specs.Break.{broken};
    ghost use Rattle.bao_types.specs.Shape.{port_range};

    ghost is_broken = { λ rule one other. one.id == other.id || one.spi == other.spi };

    ghost report = { λ rule one other. record (broken 4) { first = port_range one.base; second = port_range other.base } };

    fn judge(&self, one: &PortPlace, other: &PortPlace) -> Option<Ill> {
        if one.id == other.id || one.spi == other.spi {
            return Some(Ill {
                first: port_range(one),
                second: port_range(other),
                ..Ill::of(4)
            });
        }
        None
    }
}

/// 8: no two shared memories overlap.
pub(crate) fn rule_8(config: &Config) -> Option<Ill>
    ensures { result ≡ first (rule_8 (config_data config.now)) }
{
    first_of_pairs(&ShmemsApart, config.shmems.as_slice())
}

struct ShmemsApart;

impl PairRule<Shmem> for ShmemsApart {
    ghost use Rattle.bao_wellformed.specs.Break.{broken};
    ghost use Rattle.bao_types.specs.ByteRange.{overlaps};

    ghost is_broken = { λ rule one other. overlaps one.range other.range };

    ghost report = { λ rule one other. record (broken 8) { first = one.range; second = other.range } };

    fn judge(&self, one: &Shmem, other: &Shmem) -> Option<Ill> {
        if one.range.overlaps(&other.range) {
            return Some(Ill {
                first: one.range,
                second: other.range,
                ..Ill::of(8)
            });
        }
        None
    }
}
