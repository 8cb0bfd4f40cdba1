ghost use Rattle.std.specs.Prelude.{◌≡◌};
ghost use Rattle.pmsa_stage1.specs.Stage1.{gives_level, has_background, is_on, stage1};

use bao_types::{Access, Region, RegionFile, RegionMatch, Verdict};

/// The level that the background region is for, and that each region admits.
const EL1: u8 = 1;

/// The verdict on an access to the byte at `at` from `level`, by the EL1 regions and SCTLR_EL1 of the core.
///
/// A byte that more than one enabled region contains is a translation fault: the order of the regions decides nothing.
/// Any level but 1 is judged as EL0.
#[tactic(auto, unfolding(crate::specs::Stage1::stage1))]
pub fn judge1(regs: &RegionFile, sctlr: u64, level: u8, access: Access, at: u64) -> Verdict
    ensures { result ≡ stage1 regs.now.regions sctlr level access at }
{
    if !is_on(sctlr) {
        return Verdict::Allow;
    }
    match RegionMatch::of(&regs.regions, at) {
        RegionMatch::Miss => {
            if level == EL1 && has_background(sctlr) {
                Verdict::Allow
            } else {
                Verdict::Translation
            }
        }
        RegionMatch::Hit(region) => {
            if gives_level(&region, level, access) {
                Verdict::Allow
            } else {
                Verdict::Permission
            }
        }
        RegionMatch::Overlap => Verdict::Translation,
    }
}

/// SCTLR_EL1.M: whether the first stage is on. Where it isn't, it allows all.
pub fn is_on(sctlr: u64) -> bool
    ensures { result ≡ is_on sctlr }
{
    sctlr % 2 == 1
}

/// SCTLR_EL1.BR: whether EL1 has a background region.
fn has_background(sctlr: u64) -> bool
    ensures { result ≡ has_background sctlr }
{
    sctlr / (1 << 17) % 2 == 1
}

/// Whether a region gives the level this access.
fn gives_level(region: &Region, level: u8, access: Access) -> bool
    ensures { result ≡ gives_level region.now level access }
{
    // The low bit of AP lets EL0 in, the high bit takes writing away.
    let permission = region.access_permission();
    let admitted = level == EL1 || permission % 2 == 1;
    match access {
        Access::Read => admitted,
        Access::Write => admitted && permission < 2,
        Access::Exec => admitted && !region.is_execute_never(),
    }
}
