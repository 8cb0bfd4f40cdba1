/// The result of an addition with the four condition flags.
#[derive(Clone, Copy, Debug, PartialEq, Eq)]
pub struct Sum {
    /// The lowest 64 or 32 bits of the sum.
    pub value: u64,
    /// Negative: the highest of these bits.
    pub n: bool,
    /// Zero.
    pub z: bool,
    /// Carry: the sum of the operands as unsigned numbers has more bits.
    pub c: bool,
    /// Overflow: the sum of the operands as signed numbers isn't the value as one.
    pub v: bool,
}
