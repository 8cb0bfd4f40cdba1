//! Which byte of which port stands at an address.
ghost use Rattle.std.specs.Prelude.{◌≡◌, ◌<◌, ◌%◌, All, IfSome};
ghost use Rattle.std.specs.Option.{option_map};
ghost use Rattle.bao_types.specs.Shape.{port_size};
ghost use Rattle.board.specs.Machine.{port_places};
ghost use Rattle.board.specs.Ports.{port_count};
ghost use Rattle.sim_board.specs.Devices.{place_of};

use bao_types::PortSpot;

/// A byte of a port.
#[derive(Clone, Copy)]
pub(crate) struct PortByte {
    /// The port's number.
    pub port: u8,
    /// The place of the byte in the port.
    pub offset: u32,
}

/// The byte of a port that stands at an address, if one does.
pub(crate) fn port_at(spots: &[PortSpot], at: u64) -> Option<PortByte>
    requires numbers { All (λ spot. spot.id < port_count) spots.now }
    requires bases { All (λ spot. spot.base % port_size ≡ 0) spots.now }
    ensures place { option_map place_of result ≡ port_places spots.now at }
    ensures number { IfSome result (λ byte. byte.port < port_count) }
    ensures offset { IfSome result (λ byte. byte.offset ≡ at % port_size) }
{
    for spot in spots {
        if spot.range().contains(at) {
            return Some(PortByte {
                port: spot.id,
                offset: (at - spot.base) as u32,
            });
        }
    }
    None
}
