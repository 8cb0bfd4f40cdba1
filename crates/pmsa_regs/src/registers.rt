ghost use Rattle.std.specs.Prelude.{◌≡◌};
ghost use Rattle.pmsa_regs.specs.RegionRegs.{selected, with_base, with_limit, with_select};

use bao_types::{BASE_MASK, LIMIT_MASK, RegionFile};

/// PRSELR_EL1: the number of the selected region.
pub fn select(regs: &RegionFile) -> u64
    ensures { result ≡ regs.now.select }
{
    u64::from(regs.select)
}

/// PRBAR_EL1: the base register of the selected region.
pub fn read_base(regs: &RegionFile) -> u64
    ensures { result ≡ (selected regs.now).base }
{
    regs.regions[usize::from(regs.select)].base
}

/// PRLAR_EL1: the limit register of the selected region.
pub fn read_limit(regs: &RegionFile) -> u64
    ensures { result ≡ (selected regs.now).limit }
{
    regs.regions[usize::from(regs.select)].limit
}

/// A write of PRSELR_EL1, which keeps bits 3 to 0.
pub fn write_select(regs: &mut RegionFile, value: u64)
    ensures { regs.new ≡ with_select regs.old value }
{
    regs.select = (value % 16) as u8;
}

/// A write of PRBAR_EL1, which keeps BASE, SH, AP and XN.
pub fn write_base(regs: &mut RegionFile, value: u64)
    ensures { regs.new ≡ with_base regs.old value }
{
    regs.regions[usize::from(regs.select)].base = value & BASE_MASK;
}

/// A write of PRLAR_EL1, which keeps LIMIT, NS, the attribute index and EN.
pub fn write_limit(regs: &mut RegionFile, value: u64)
    ensures { regs.new ≡ with_limit regs.old value }
{
    regs.regions[usize::from(regs.select)].limit = value & LIMIT_MASK;
}
