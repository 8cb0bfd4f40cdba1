ghost use Rattle.std.specs.Prelude.{◌≡◌};

use crate::Region;

/// The enabled regions of a list that contain one byte, as far as their number decides.
#[derive(Clone, Copy, Debug, PartialEq, Eq)]
pub enum RegionMatch {
    /// None does.
    Miss,
    /// This one alone does.
    Hit(Region),
    /// Two or more do.
    Overlap,
}

impl RegionMatch {
    ghost use Rattle.bao_types.specs.RegionMatch.{region_match};

    /// The match of the byte at `at` among `regions`.
    pub fn of(regions: &[Region], at: u64) -> Self
        ensures { result ≡ region_match regions.now at }
    {
        let mut found = RegionMatch::Miss;
        for region in regions {
            if region.is_match(at) {
                match found {
                    RegionMatch::Miss => found = RegionMatch::Hit(*region),
                    _ => return RegionMatch::Overlap,
                }
            }
        }
        found
    }
}
