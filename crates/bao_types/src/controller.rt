/// The ids of a virtual core's interrupts lie below this.
pub const ID_END: u16 = 96;

/// The bytes of a frame of the interrupt controller.
pub const FRAME_SIZE: u64 = 0x1_0000;

/// The bytes of a core's redistributor: its two frames.
pub const REDISTRIBUTOR_SIZE: u64 = 0x2_0000;
