//! The ranges of a configuration that stand in no record of it.
ghost use Rattle.std.specs.Prelude.{◌≡◌};
ghost use Rattle.bao_types.specs.Shape.{port_range};
ghost use Rattle.bao_config.specs.Config.{config_data};
ghost use Rattle.bao_wellformed.specs.Rules.{distributor, redistributors, lies_in_a_bank};

use bao_config::{Config, PortPlace};
use bao_types::{ByteRange, FRAME_SIZE, PORT_SIZE, REDISTRIBUTOR_SIZE};

/// The bytes of a port.
pub(crate) fn port_range(port: &PortPlace) -> ByteRange
    ensures { result ≡ port_range port.now.base }
{
    ByteRange {
        base: port.base,
        size: PORT_SIZE,
    }
}

/// The frame of the interrupt distributor.
pub(crate) fn distributor(config: &Config) -> ByteRange
    ensures { result ≡ distributor (config_data config.now) }
{
    ByteRange {
        base: config.platform.gicd,
        size: FRAME_SIZE,
    }
}

/// The frames of the redistributors: one for each core of the platform, one after the other.
pub(crate) fn redistributors(config: &Config) -> ByteRange
    ensures { result ≡ redistributors (config_data config.now) }
{
    ByteRange {
        base: config.platform.gicr,
        size: REDISTRIBUTOR_SIZE * config.platform.cores.len() as u64,
    }
}

/// Whether the range lies in one bank.
pub(crate) fn lies_in_a_bank(config: &Config, range: &ByteRange) -> bool
    ensures { result ≡ lies_in_a_bank (config_data config.now) range.now }
{
    config.platform.banks.iter().any(|bank| range.lies_in(bank))
}
