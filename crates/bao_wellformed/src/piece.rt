//! What stands on the platform, and the rule by which it stands apart: 3.
ghost use Rattle.std.specs.Prelude.{◌≡◌, ◌≤◌, ◌+◌, ◌^◌, ◌<◌, ◌++◌, map, IfOk, OnOk};
ghost use Rattle.bao_types.specs.Shape.{port_range, port_size};
ghost use Rattle.bao_config.specs.Config.{config_data};
ghost use Rattle.bao_wellformed.specs.declared.piece.Piece.{Piece};
ghost use Rattle.bao_wellformed.specs.Break.{first};
ghost use Rattle.bao_wellformed.specs.Rules.{plain, frame, pieces, rule_3};

use crate::Ill;
use crate::pair_rules::{PairRule, first_of_pairs};
use crate::ranges::{distributor, port_range, redistributors};
use bao_config::{Config, PortPlace};
use bao_types::{ByteRange, PORT_SIZE};
use std::alloc::{AllocError, Global};

/// A bank, a port, or a frame of the interrupt controller.
#[derive(Clone, Copy, Debug, PartialEq, Eq)]
pub(crate) struct Piece {
    pub(crate) range: ByteRange,
    /// The range that has to be free of banks and ports: of a frame also as many bytes below it as a port has.
    pub(crate) with_margin: ByteRange,
    pub(crate) is_frame: bool,
}

/// A bank or a port.
fn plain(range: ByteRange) -> Piece
    ensures { result ≡ plain range }
{
    Piece {
        range,
        with_margin: range,
        is_frame: false,
    }
}

fn frame(range: ByteRange) -> Piece
    requires base { port_size ≤ range.base }
    requires size { range.size + port_size < 2 ^ 64 }
    ensures { result ≡ frame range }
{
    Piece {
        range,
        with_margin: ByteRange {
            base: range.base - PORT_SIZE,
            size: range.size + PORT_SIZE,
        },
        is_frame: true,
    }
}

/// All that stands on the platform, in the order of the rule.
fn pieces(alloc: Global, config: &Config) -> Result<Vec<Piece>, AllocError>
    ensures { IfOk result (λ all. all.items ≡ pieces (config_data config.now)) }
{
    let mut all = Vec::new(alloc);
    push_banks(&mut all, config.platform.banks.as_slice())?;
    all.push(frame(distributor(config)))?;
    all.push(frame(redistributors(config)))?;
    push_ports(&mut all, config.platform.ports.as_slice())?;
    Ok(all)
}

fn push_banks(all: &mut Vec<Piece>, banks: &[ByteRange]) -> Result<(), AllocError>
    ensures { OnOk result (all.new.items ≡ all.old.items ++ map plain banks.now) }
{
    for bank in banks {
        all.push(plain(*bank))?;
    }
    Ok(())
}

fn push_ports(all: &mut Vec<Piece>, ports: &[PortPlace]) -> Result<(), AllocError>
    ensures { OnOk result (all.new.items
        ≡ all.old.items ++ map (λ port. plain (port_range port.base)) ports.now) }
{
    for port in ports {
        all.push(plain(port_range(port)))?;
    }
    Ok(())
}

struct PiecesApart;

impl PairRule<Piece> for PiecesApart {
    ghost use Rattle.bao_wellformed.specs.Break.{broken};
    ghost use Rattle.bao_wellformed.specs.Rules.{are_too_near};

    ghost is_broken = { λ rule one other. are_too_near one other };

    ghost report = { λ rule one other. record (broken 3) { first = one.range; second = other.range } };

    fn judge(&self, one: &Piece, other: &Piece) -> Option<Ill> {
        let is_broken = if one.is_frame && other.is_frame {
            one.range.overlaps(&other.range)
        } else {
            one.with_margin.overlaps(&other.with_margin)
        };
        if is_broken {
            return Some(Ill {
                first: one.range,
                second: other.range,
                ..Ill::of(3)
            });
        }
        None
    }
}

/// 3: banks, frames and ports don't overlap.
pub(crate) fn rule_3(alloc: Global, config: &Config) -> Result<Option<Ill>, AllocError>
    ensures { IfOk result (λ found. found ≡ first (rule_3 (config_data config.now))) }
{
    let all = pieces(alloc, config)?;
    Ok(first_of_pairs(&PiecesApart, all.as_slice()))
}
