ghost use Rattle.std.specs.Prelude.{◌≡◌, ◌%◌, IfSome};
ghost use Rattle.std.specs.Option.{option_map};
ghost use Rattle.vgic_emul.specs.Reached.{effect_of, Fits, has, with_flag};
ghost use Rattle.vgic_emul.specs.Registers.{distributor_rows, effect_in, private_rows, redistributor_rows};
ghost use Rattle.vgic_emul.specs.declared.register.Register.TheVariants.{Flags};

use vgic_table::IdState;

/// A register of the emulated controller.
#[derive(Clone, Copy)]
pub(crate) enum Register {
    /// GICD_CTLR.
    Control,
    /// GICD_TYPER.
    DistributorType,
    /// GICR_TYPER.
    CoreType,
    /// A bit an id: ISENABLER and ISPENDR, or ICENABLER and ICPENDR, where a 1 clears.
    Flags { flag: Flag, sets: bool },
    /// IPRIORITYR, a byte an id.
    Priorities,
}

/// What a bit of a register tells of an id.
#[derive(Clone, Copy)]
pub(crate) enum Flag {
    Enabled,
    Pending,
}

impl Flag {
    /// Whether an id has the flag.
    pub(crate) fn is_on(self, state: IdState) -> bool
        ensures { result ≡ has self state }
    {
        match self {
            Flag::Enabled => state.enabled,
            Flag::Pending => state.pending,
        }
    }

    /// The id with the flag on or off.
    pub(crate) fn turned(self, on: bool, mut state: IdState) -> IdState
        ensures { result ≡ with_flag self on state }
    {
        match self {
            Flag::Enabled => state.enabled = on,
            Flag::Pending => state.pending = on,
        }
        state
    }
}

/// The register of the distributor that an access reaches.
pub(crate) fn of_distributor(offset: u32, width: u32) -> Option<Register>
    requires { offset % width ≡ 0 }
    ensures effect { option_map effect_of result ≡ effect_in distributor_rows offset width }
    ensures fits { IfSome result (Fits offset width) }
{
    let register = match (offset, width) {
        (0x0..=0x3, 4) => Register::Control,
        (0x4..=0x7, 4) => Register::DistributorType,
        (0x104..=0x10b, 4) => flags(Flag::Enabled, true),
        (0x184..=0x18b, 4) => flags(Flag::Enabled, false),
        (0x204..=0x20b, 4) => flags(Flag::Pending, true),
        (0x284..=0x28b, 4) => flags(Flag::Pending, false),
        (0x420..=0x45f, 1 | 4) => Register::Priorities,
        _ => return None,
    };
    Some(register)
}

/// The register of a redistributor that an access reaches.
pub(crate) fn of_redistributor(offset: u32, width: u32) -> Option<Register>
    requires { offset % width ≡ 0 }
    ensures effect { option_map effect_of result ≡ effect_in redistributor_rows offset width }
    ensures fits { IfSome result (Fits offset width) }
{
    match (offset, width) {
        (0x8..=0xf, 4 | 8) => Some(Register::CoreType),
        _ => None,
    }
}

/// The register of the frame of a core's own ids that an access reaches.
pub(crate) fn of_private_ids(offset: u32, width: u32) -> Option<Register>
    requires { offset % width ≡ 0 }
    ensures effect { option_map effect_of result ≡ effect_in private_rows offset width }
    ensures fits { IfSome result (Fits offset width) }
{
    let register = match (offset, width) {
        (0x100..=0x103, 4) => flags(Flag::Enabled, true),
        (0x180..=0x183, 4) => flags(Flag::Enabled, false),
        (0x200..=0x203, 4) => flags(Flag::Pending, true),
        (0x280..=0x283, 4) => flags(Flag::Pending, false),
        (0x400..=0x41f, 1 | 4) => Register::Priorities,
        _ => return None,
    };
    Some(register)
}

const fn flags(flag: Flag, sets: bool) -> Register
    ensures { result ≡ Flags flag sets }
{
    Register::Flags { flag, sets }
}
