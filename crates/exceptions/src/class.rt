ghost use Rattle.std.specs.Prelude.{◌≡◌, ◌<◌};
ghost use Rattle.exceptions.specs.Syndrome.{class_number, class_of};

use a64_decode::ExceptionKind;

/// The classes of exceptions, by their numbers in a syndrome (ARM DDI 0487, "ESR_EL1", EC).
#[derive(Clone, Copy, Debug, PartialEq, Eq)]
pub enum Class {
    /// 0x00: an undefined word, or a system register that the level can't use.
    Unknown,
    /// 0x0E: PSTATE.IL is set.
    IllegalState,
    /// 0x15.
    Svc,
    /// 0x16.
    Hvc,
    /// 0x17.
    Smc,
    /// 0x18: an access to a system register that EL2 takes.
    SystemRegister,
    /// 0x20: of a fetch, at a lower level than takes it.
    InstructionAbortLower,
    /// 0x21: of a fetch, at the level that takes it.
    InstructionAbortSame,
    /// 0x22: PC isn't a multiple of 4.
    PcAlignment,
    /// 0x24: of a load or a store, at a lower level than takes it.
    DataAbortLower,
    /// 0x25: of a load or a store, at the level that takes it.
    DataAbortSame,
    /// 0x26: SP as a base isn't a multiple of 16.
    SpAlignment,
    /// 0x3C.
    Brk,
}

impl Class {
    /// The class of an instruction that makes an exception.
    pub fn of(kind: ExceptionKind) -> Class
        ensures { result ≡ class_of kind }
    {
        match kind {
            ExceptionKind::Svc => Class::Svc,
            ExceptionKind::Hvc => Class::Hvc,
            ExceptionKind::Smc => Class::Smc,
            ExceptionKind::Brk => Class::Brk,
        }
    }

    /// The number of the class.
    pub fn number(self) -> u32
        ensures value { result ≡ class_number self }
        ensures bound { result < 64 }
    {
        match self {
            Class::Unknown => 0x00,
            Class::IllegalState => 0x0E,
            Class::Svc => 0x15,
            Class::Hvc => 0x16,
            Class::Smc => 0x17,
            Class::SystemRegister => 0x18,
            Class::InstructionAbortLower => 0x20,
            Class::InstructionAbortSame => 0x21,
            Class::PcAlignment => 0x22,
            Class::DataAbortLower => 0x24,
            Class::DataAbortSame => 0x25,
            Class::SpAlignment => 0x26,
            Class::Brk => 0x3C,
        }
    }
}
