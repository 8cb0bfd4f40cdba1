ghost use Rattle.std.specs.Prelude.{◌≡◌, ◌<◌};
ghost use Rattle.a64_state.specs.Mode.{number_of};
ghost use Rattle.a64_state.specs.Pstate.{IsPstate};
ghost use Rattle.exceptions.specs.Assembled.{pstate_of};

use a64_state::{Mode, pstate};

/// PSTATE with these flags, IL, masks and mode, and all other bits 0.
pub(crate) fn assemble(flags: u32, illegal: bool, daif: u32, mode: Mode) -> u32
    requires flags { flags < 16 }
    requires daif { daif < 16 }
    ensures value { result ≡ pstate_of (record { flags = flags; illegal_state = illegal; daif = daif; mode = number_of mode }) }
    ensures bits { IsPstate result }
{
    flags * (1 << 28) + u32::from(illegal) * pstate::IL + daif * (1 << 6) + mode.number()
}
