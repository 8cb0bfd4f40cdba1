ghost use Rattle.std.specs.Prelude.{◌≡◌};

use std::marker::Model;

/// The bytes of a granule: a protection region begins at a multiple of this many bytes and ends before one.
pub const GRANULE: u64 = 64;

/// The bits that a write of a base register keeps: BASE, SH, AP and XN.
pub const BASE_MASK: u64 = 0x0000_ffff_ffff_fffe;

/// The bits that a write of a limit register keeps: LIMIT, NS, the attribute index and EN.
pub const LIMIT_MASK: u64 = 0x0000_ffff_ffff_ffdf;

/// A protection region: the base and the limit register of PMSAv8-64, with this project's layout of bits.
///
/// The base register has BASE in bits 47 to 6, SH in 5 and 4, AP in 3 and 2 and XN in bit 1. The limit
/// register has LIMIT in bits 47 to 6, NS in bit 4, the attribute index in 3 to 1 and EN in bit 0. The
/// region covers the bytes from BASE times 64 to LIMIT times 64 + 63, both ends included.
#[derive(Clone, Copy, Debug, Default, PartialEq, Eq)]
pub struct Region {
    pub base: u64,
    pub limit: u64,
}

/// A region of zeros, which is off, as all are after a reset.
pub const NO_REGION: Region = Region { base: 0, limit: 0 };

impl Region {
    ghost use Rattle.std.specs.Prelude.{◌<◌};
    ghost use Rattle.bao_types.specs.ByteRange.{address_space_end};
    ghost use Rattle.bao_types.specs.Region.{access_permission, covers, first_byte, is_enabled, is_execute_never, is_match, last_byte};

    /// BASE times 64: the address of the region's first byte, below 2^48.
    pub fn first_byte(&self) -> u64
        ensures value { result ≡ first_byte self.now }
        ensures bound { result < address_space_end }
    {
        self.base / GRANULE % (1 << 42) * GRANULE
    }

    /// LIMIT times 64 + 63: the address of the region's last byte, below 2^48.
    pub fn last_byte(&self) -> u64
        ensures value { result ≡ last_byte self.now }
        ensures bound { result < address_space_end }
    {
        self.limit / GRANULE % (1 << 42) * GRANULE + (GRANULE - 1)
    }

    /// Whether the byte at `at` lies between the region's base and the last byte of its limit granule.
    /// The region need not be enabled.
    pub fn covers(&self, at: u64) -> bool
        ensures { result ≡ covers self.now at }
    {
        let granule = at / GRANULE;
        self.base / GRANULE % (1 << 42) <= granule && granule <= self.limit / GRANULE % (1 << 42)
    }

    /// EN: whether the region counts at all.
    pub fn is_enabled(&self) -> bool
        ensures { result ≡ is_enabled self.now }
    {
        self.limit % 2 == 1
    }

    /// Whether the region is enabled and the byte at `at` lies in it.
    pub fn is_match(&self, at: u64) -> bool
        ensures { result ≡ is_match self.now at }
    {
        self.is_enabled() && self.covers(at)
    }

    /// AP: 0 to 3, who may read and write.
    pub fn access_permission(&self) -> u8
        ensures { result ≡ access_permission self.now }
    {
        (self.base / 4 % 4) as u8
    }

    /// XN: whether the bytes may not be executed.
    pub fn is_execute_never(&self) -> bool
        ensures { result ≡ is_execute_never self.now }
    {
        self.base / 2 % 2 == 1
    }
}

/// The EL1 protection regions of a core, and the register that selects one of them (PRSELR_EL1).
#[derive(Clone, Copy, Debug, PartialEq, Eq)]
pub struct RegionFile {
    /// The selected region, below 16.
    pub select: u8,
    pub regions: [Region; 16],
}

impl Model for RegionFile {
    ghost use Rattle.std.specs.Prelude.{◌<◌};
    ghost use Rattle.bao_types.specs.RegionFile.{RegionFileData};

    ghost Value = { RegionFileData };

    ghost view = { λ r. record { select = r.select; regions = r.regions } };

    ghost invariant = { λ r. r.select < 16 };

    ghost inverse = { λ d. record { select = d.select; regions = d.regions } };
}
