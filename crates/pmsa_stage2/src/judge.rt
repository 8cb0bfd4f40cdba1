ghost use Rattle.std.specs.Prelude.{◌≡◌};
ghost use Rattle.pmsa_stage2.specs.Stage2.{gives_guest, stage2};

use bao_types::{Access, Region, RegionMatch, Verdict};

/// The verdict on a guest's access to the byte at `at`, by the EL2 entries of its core.
///
/// A byte that no enabled entry contains, or more than one, is a translation fault: there is no background, and
/// the order of the entries decides nothing.
#[tactic(auto, unfolding(crate::specs::Stage2::stage2))]
pub fn judge2(entries: &[Region], access: Access, at: u64) -> Verdict
    ensures { result ≡ stage2 entries.now access at }
{
    match RegionMatch::of(entries, at) {
        RegionMatch::Hit(entry) => {
            if gives_guest(&entry, access) {
                Verdict::Allow
            } else {
                Verdict::Permission
            }
        }
        RegionMatch::Miss | RegionMatch::Overlap => Verdict::Translation,
    }
}

/// Whether an entry gives a guest this access.
fn gives_guest(entry: &Region, access: Access) -> bool
    ensures { result ≡ gives_guest entry.now access }
{
    // The low bit of AP lets guests in, the high bit takes writing away.
    let permission = entry.access_permission();
    let guests = permission % 2 == 1;
    match access {
        Access::Read => guests,
        Access::Write => guests && permission < 2,
        Access::Exec => guests && !entry.is_execute_never(),
    }
}
