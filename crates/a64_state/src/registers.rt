ghost use Rattle.std.specs.Prelude.{◌≡◌, ◌≤◌, ◌<◌, if◌then◌else◌};

use crate::{Mode, pstate};
use bao_types::{IfaceRegs, NO_REGION, RegionFile, TimerRegs};
use std::marker::Model;

/// The system registers of EL1 and EL0 that only keep what is written to them, or that hold the state of an
/// exception. All names but the last two are those of `_EL1` registers.
#[derive(Clone, Copy, Debug, Default, PartialEq, Eq)]
pub struct SysRegs {
    pub sctlr: u64,
    pub cpacr: u64,
    /// Bits 31 to 0 alone.
    pub spsr: u64,
    pub elr: u64,
    pub esr: u64,
    pub far: u64,
    pub mair: u64,
    /// Bits 63 to 11 alone.
    pub vbar: u64,
    pub contextidr: u64,
    pub tpidr: u64,
    pub cntkctl: u64,
    pub tpidr_el0: u64,
    pub tpidrro_el0: u64,
}

/// The registers of one core. No register has a bit that it doesn't keep.
///
/// Numbers stand first: a derived comparison looks at them first, whatever the order.
#[derive(Clone, Copy, Debug, PartialEq, Eq)]
pub struct Core {
    /// SP_EL0.
    pub sp0: u64,
    /// SP_EL1.
    pub sp1: u64,
    pub pc: u64,
    /// The bits of [`pstate`] alone, with one of the modes 0, 4 and 5.
    pub pstate: u32,
    /// The number of the core within its machine, as MPIDR_EL1 gives it.
    pub affinity: u8,
    /// X0 to X30.
    pub x: [u64; 31],
    pub sys: SysRegs,
    /// The EL1 protection regions.
    pub regions: RegionFile,
    /// The virtual timer; its control register has bits 1 and 0 alone.
    pub timer: TimerRegs,
    /// The virtual interrupt interface.
    pub iface: IfaceRegs,
}

impl Model for Core {
    ghost use Rattle.a64_state.specs.Core.{CoreData, IsCore};

    ghost Value = { CoreData };

    ghost use Rattle.a64_state.specs.CoreView.{data_of, core_of};

    ghost view = { data_of };

    ghost invariant = { λ c. IsCore (data_of c) };

    ghost inverse = { core_of };
}

impl Core {
    ghost use Rattle.a64_state.specs.Registers.{x_of, with_x, sp_of, with_sp, x_or_sp, with_x_or_sp, level, reset_core};
    ghost use Rattle.a64_state.specs.Pstate.{masks_irq, mode, with_flags, with_illegal_state, with_daif};
    ghost use Rattle.a64_state.specs.Mode.{number_of, with_mode};

    /// A core after a reset: EL1 with its own stack pointer, all interrupts masked, and all other registers 0.
    pub fn reset(affinity: u8) -> Core
        ensures { result ≡ reset_core affinity }
    {
        Core {
            x: [0; 31],
            sp0: 0,
            sp1: 0,
            pc: 0,
            pstate: pstate::RESET,
            sys: SysRegs::default(),
            regions: RegionFile {
                select: 0,
                regions: [NO_REGION; 16],
            },
            timer: TimerRegs {
                ctl: 0,
                cval: 0,
                level: false,
            },
            iface: IfaceRegs {
                pmr: 0,
                group: false,
                active: 0,
            },
            affinity,
        }
    }

    /// Xn; register 31 is the zero register.
    pub fn read_x(&self, n: u8) -> u64
        requires { n ≤ 31 }
        ensures { result ≡ x_of self.now n }
    {
        if n == 31 { 0 } else { self.x[usize::from(n)] }
    }

    /// Writes Xn; a write of register 31 is ignored.
    pub fn write_x(&mut self, n: u8, value: u64)
        requires { n ≤ 31 }
        ensures { self.new ≡ with_x self.old n value }
    {
        if n != 31 {
            self.x[usize::from(n)] = value;
        }
    }

    /// The exception level, 0 or 1.
    pub fn level(&self) -> u8
        ensures { result ≡ level self.now }
    {
        (self.pstate / 4 % 4) as u8
    }

    /// PSTATE.I: whether IRQ is masked.
    pub fn masks_irq(&self) -> bool
        ensures { result ≡ masks_irq self.now.pstate }
    {
        self.pstate / (1 << 7) % 2 == 1
    }

    /// SP: the stack pointer that PSTATE selects.
    pub fn read_sp(&self) -> u64
        ensures { result ≡ sp_of self.now }
    {
        if self.pstate % pstate::MODES == pstate::EL1H {
            self.sp1
        } else {
            self.sp0
        }
    }

    /// Writes the stack pointer that PSTATE selects.
    pub fn write_sp(&mut self, value: u64)
        ensures { self.new ≡ with_sp self.old value }
    {
        if self.pstate % pstate::MODES == pstate::EL1H {
            self.sp1 = value;
        } else {
            self.sp0 = value;
        }
    }

    /// Xn, or SP for 31, as the base of an access and some operands are read.
    pub fn read_x_or_sp(&self, n: u8) -> u64
        requires { n ≤ 31 }
        ensures { result ≡ x_or_sp self.now n }
    {
        if n == 31 {
            self.read_sp()
        } else {
            self.read_x(n)
        }
    }

    /// Writes Xn, or SP for 31.
    pub fn write_x_or_sp(&mut self, n: u8, value: u64)
        requires { n ≤ 31 }
        ensures { self.new ≡ with_x_or_sp self.old n value }
    {
        if n == 31 {
            self.write_sp(value);
        } else {
            self.write_x(n, value);
        }
    }

    /// The exception level and the selected stack pointer.
    pub fn mode(&self) -> Mode
        ensures { number_of result ≡ mode self.now.pstate }
    {
        match self.pstate % pstate::MODES {
            pstate::EL0T => Mode::El0t,
            pstate::EL1T => Mode::El1t,
            _ => Mode::El1h,
        }
    }

    /// Goes to another exception level and stack pointer; all else of PSTATE stays.
    pub fn set_mode(&mut self, to: Mode)
        ensures { self.new ≡ record self.old { pstate = with_mode self.old.pstate to } }
    {
        self.pstate = self.pstate / (1 << 5) * (1 << 5) + to.number();
    }

    /// Selects EL1's own stack pointer or SP_EL0; the core is then at EL1.
    pub fn select_sp(&mut self, own: bool)
        ensures { self.new ≡ record self.old { pstate = with_mode self.old.pstate (if own then Mode.El1h else Mode.El1t) } }
    {
        self.set_mode(if own { Mode::El1h } else { Mode::El1t });
    }

    /// Sets N, Z, C and V to the bits of a number, N the highest; all else of PSTATE stays.
    pub fn set_flags(&mut self, to: u32)
        requires { to < 16 }
        ensures { self.new ≡ record self.old { pstate = with_flags self.old.pstate to } }
    {
        self.pstate = to * (1 << 28) + self.pstate % (1 << 28);
    }

    /// Sets the masks D, A, I and F to the bits of a number, D the highest; all else of PSTATE stays.
    pub fn set_daif(&mut self, to: u32)
        requires { to < 16 }
        ensures { self.new ≡ record self.old { pstate = with_daif self.old.pstate to } }
    {
        self.pstate = self.pstate / (1 << 10) * (1 << 10) + to * (1 << 6) + self.pstate % (1 << 6);
    }

    /// Sets or clears IL; all else of PSTATE stays.
    pub fn set_illegal_state(&mut self, to: bool)
        ensures { self.new ≡ record self.old { pstate = with_illegal_state self.old.pstate to } }
    {
        let above = self.pstate / (1 << 21) * (1 << 21);
        self.pstate = above + u32::from(to) * pstate::IL + self.pstate % (1 << 20);
    }
}
