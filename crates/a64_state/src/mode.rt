ghost use Rattle.std.specs.Prelude.{◌≡◌};
ghost use Rattle.a64_state.specs.Mode.{mode_of, number_of};

use crate::pstate::{EL0T, EL1H, EL1T, MODES};

/// The modes that a core can be in: its exception level and which stack pointer SP is (ARM DDI 0487, "SPSR_EL1", M).
#[derive(Clone, Copy, Debug, PartialEq, Eq)]
pub enum Mode {
    /// EL0, with SP_EL0.
    El0t,
    /// EL1 with SP_EL0.
    El1t,
    /// EL1 with SP_EL1, its own.
    El1h,
}

impl Mode {
    /// The mode in the mode field of PSTATE or of an SPSR; None where the field is that of no mode of EL0 and EL1.
    pub fn of(pstate: u32) -> Option<Mode>
        ensures { result ≡ mode_of pstate }
    {
        match pstate % MODES {
            EL0T => Some(Mode::El0t),
            EL1T => Some(Mode::El1t),
            EL1H => Some(Mode::El1h),
            _ => None,
        }
    }

    /// The value of the mode field.
    pub fn number(self) -> u32
        ensures { result ≡ number_of self }
    {
        match self {
            Mode::El0t => EL0T,
            Mode::El1t => EL1T,
            Mode::El1h => EL1H,
        }
    }
}
