ghost use Rattle.std.specs.Prelude.{◌≡◌, ◌<◌, ◌≤◌, ◌*◌, ◌/◌, ◌%◌, IfSome};
ghost use Rattle.bao_types.specs.ByteRange.{address_space_end};
ghost use Rattle.bao_types.specs.Controller.{redistributor_size};
ghost use Rattle.vgic_emul.specs.Frame.{frame_at, in_core, IsPlace};

use bao_types::{FRAME_SIZE, REDISTRIBUTOR_SIZE};

/// A byte of an emulated frame. An offset is from the frame's first byte, in bytes.
#[derive(Clone, Copy, Debug, PartialEq, Eq)]
pub enum FramePlace {
    /// The VM's distributor.
    Dist { offset: u32 },
    /// The redistributor of a virtual core.
    Redist { core: u8, offset: u32 },
    /// The frame of a virtual core's own ids, after its redistributor.
    Sgi { core: u8, offset: u32 },
}

/// The emulated frame in which an address lies, of a VM with this many virtual cores. None comes exactly where the address
/// is in no frame of the VM, and a core of a place is one of the VM's.
pub fn frame(gicd: u64, gicr: u64, cores: u8, at: u64) -> Option<FramePlace>
    requires gicd { gicd < address_space_end }
    requires gicr { gicr < address_space_end }
    requires cores { cores ≤ 8 }
    ensures value { result ≡ frame_at gicd gicr cores at }
    ensures lies { IfSome result (IsPlace cores) }
{
    if gicd <= at && at < gicd + FRAME_SIZE {
        return Some(FramePlace::Dist {
            offset: (at - gicd) as u32,
        });
    }
    if gicr <= at && at < gicr + REDISTRIBUTOR_SIZE * u64::from(cores) {
        return Some(in_core(at - gicr));
    }
    None
}

/// The frame of a core in which a byte lies, counted from the first core's first byte.
fn in_core(at: u64) -> FramePlace
    requires { at < redistributor_size * 8 }
    ensures { result ≡ in_core (at / redistributor_size) (at % redistributor_size) }
{
    let core = (at / REDISTRIBUTOR_SIZE) as u8;
    let offset = at % REDISTRIBUTOR_SIZE;
    if offset < FRAME_SIZE {
        FramePlace::Redist {
            core,
            offset: offset as u32,
        }
    } else {
        FramePlace::Sgi {
            core,
            offset: (offset - FRAME_SIZE) as u32,
        }
    }
}
