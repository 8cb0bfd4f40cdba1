ghost use Rattle.std.specs.Prelude.{◌≡◌, IsTrue};
ghost use Rattle.ports.specs.Registers.{is_register_width, low_bits};

/// Whether a register answers accesses of this many bytes.
pub(crate) fn is_register_width(width: u32) -> bool
    ensures { result ≡ is_register_width width }
{
    width == 1 || width == 2 || width == 4
}

/// The low `width` bytes of a value.
pub(crate) fn low_bits(width: u32, value: u64) -> u32
    requires { IsTrue (is_register_width width) }
    ensures { result ≡ low_bits width value }
{
    let size: u64 = match width {
        1 => 0x100,
        2 => 0x1_0000,
        _ => 0x1_0000_0000,
    };
    (value % size) as u32
}
