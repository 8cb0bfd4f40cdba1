ghost use Rattle.std.specs.Prelude.{◌≡◌, ◌≤◌, ◌+◌, ◌++◌, [], length, map, slice_get, unwrap_or};
ghost use Rattle.std.specs.Fmt.{decimal};
ghost use Rattle.bao_config.specs.declared.error.ConfigError.TheVariants.{OutOfMemory};

use arrayvec::ArrayVec;
use std::alloc::{AllocError, AllocFailed};
use thiserror::Error;

/// A row of the key table, with the place in each array that leads to it.
#[derive(Clone, Copy, Debug, PartialEq, Eq)]
pub struct Spot {
    /// 1 to 52.
    pub row: u8,
    /// The place in the outermost array, 0 where there is none.
    pub i: u8,
    /// The place in the array inside that one, 0 where there is none.
    pub j: u8,
    /// The place in the innermost of three arrays, 0 where there is none.
    pub k: u8,
}

/// How many bytes a path has at most.
pub const PATH_LIMIT: usize = 27;

/// The paths of the rows, with the digits 0, 1 and 2 for the places. There is no row 0.
const PATTERNS: [&str; 53] = [
    "",
    "document",
    "version",
    "platform",
    "platform.banks",
    "platform.banks[0]",
    "platform.banks[0].base",
    "platform.banks[0].size",
    "platform.cores",
    "platform.cores[0]",
    "platform.gicd",
    "platform.gicr",
    "platform.ports",
    "platform.ports[0]",
    "platform.ports[0].id",
    "platform.ports[0].base",
    "platform.ports[0].spi",
    "hypervisor",
    "hypervisor.base",
    "hypervisor.size",
    "shmem",
    "shmem[0]",
    "shmem[0].base",
    "shmem[0].size",
    "shmem[0].events",
    "vm",
    "vm[0]",
    "vm[0].name",
    "vm[0].image",
    "vm[0].load",
    "vm[0].room",
    "vm[0].entry",
    "vm[0].cores",
    "vm[0].cores[1]",
    "vm[0].regions",
    "vm[0].regions[1]",
    "vm[0].regions[1].base",
    "vm[0].regions[1].size",
    "vm[0].regions[1].access",
    "vm[0].devs",
    "vm[0].devs[1]",
    "vm[0].devs[1].port",
    "vm[0].devs[1].irq",
    "vm[0].ipcs",
    "vm[0].ipcs[1]",
    "vm[0].ipcs[1].shmem",
    "vm[0].ipcs[1].access",
    "vm[0].ipcs[1].irqs",
    "vm[0].ipcs[1].irqs[2]",
    "vm[0].guards",
    "vm[0].guards[1]",
    "vm[0].guards[1].base",
    "vm[0].guards[1].size",
];

/// Why bytes are no configuration. A fault is the first one in the order of the key table.
#[derive(Clone, Copy, Debug, PartialEq, Eq, Drop, Error)]
pub enum ConfigError {
    /// The bytes are no UTF-8 text, or the text is no TOML document.
    #[error("bad toml")]
    BadToml,
    /// A key is missing or unknown, or what stands there is of another kind, length or text than the row asks for.
    #[error("bad shape")]
    BadShape { spot: Spot },
    /// An integer is outside the row's bounds.
    #[error("bad value")]
    BadValue { spot: Spot, value: i64 },
    #[error("out of memory")]
    OutOfMemory,
}

impl Spot {
    ghost use Rattle.bao_config.specs.Path.{pattern_of, filled, path_of};

    /// The path of the spot, as `vm[0].regions[2].size`, which a refusal tells. A row that isn't in the key table has
    /// none.
    pub fn path(self) -> ArrayVec<u8, PATH_LIMIT>
        ensures { result.items ≡ path_of self }
    {
        let mut path = ArrayVec::new();
        let pattern = self.pattern().as_bytes();
        for i in 0..pattern.len() {
            self.push_part(&mut path, pattern[i]);
        }
        path
    }

    /// Appends what stands in the path for a byte of the row's pattern.
    fn push_part(self, path: &mut ArrayVec<u8, PATH_LIMIT>, byte: u8)
        requires { length path.old.items + length (filled self byte) ≤ 27 }
        ensures { path.new.items ≡ path.old.items ++ filled self byte }
    {
        match byte {
            b'0' => push_number(path, self.i),
            b'1' => push_number(path, self.j),
            b'2' => push_number(path, self.k),
            _ => path.push(byte),
        }
    }

    /// The path of the spot's row, as `vm[0].regions[1].size`, with the digits 0, 1 and 2 where the places `i`,
    /// `j` and `k` stand. A row that isn't in the key table has none.
    fn pattern(self) -> &'static str
        ensures { result.now ≡ pattern_of self.row }
    {
        text_at(&PATTERNS, usize::from(self.row))
    }

    /// The same places at another row.
    pub(crate) fn at_row(self, row: u8) -> Spot
        ensures { result ≡ record self { row = row } }
    {
        Spot { row, ..self }
    }

    /// At this row, the place in the outermost array.
    pub(crate) fn in_i(self, row: u8, i: u8) -> Spot
        ensures { result ≡ record self { row = row; i = i } }
    {
        Spot { row, i, ..self }
    }

    /// At this row, the place in the array inside that one.
    pub(crate) fn in_j(self, row: u8, j: u8) -> Spot
        ensures { result ≡ record self { row = row; j = j } }
    {
        Spot { row, j, ..self }
    }

    /// At this row, the place in the innermost array.
    pub(crate) fn in_k(self, row: u8, k: u8) -> Spot
        ensures { result ≡ record self { row = row; k = k } }
    {
        Spot { row, k, ..self }
    }
}

/// Appends a number, without leading zeros.
fn push_number(path: &mut ArrayVec<u8, PATH_LIMIT>, number: u8)
    requires { length path.old.items + length (decimal number) ≤ 27 }
    ensures { path.new.items ≡ path.old.items ++ decimal number }
{
    let mut digits = itoa::Buffer::new();
    let _ = path.try_extend_from_slice(digits.format(number).as_bytes());
}

/// The text at this place, and the empty one after the last.
fn text_at<'a>(texts: &[&'a str], i: usize) -> &'a str
    ensures { result.now ≡ unwrap_or (slice_get (map (λ s. s.now) texts.now) i) [] }
{
    if i < texts.len() { texts[i] } else { "" }
}

impl From<AllocError> for ConfigError {
    ghost from_gives = { λ _ e. e ≡ OutOfMemory };

    fn from(_: AllocError) -> Self {
        ConfigError::OutOfMemory
    }
}

impl<T: Drop> From<AllocFailed<T>> for ConfigError {
    ghost from_gives = { λ _ e. e ≡ OutOfMemory };

    fn from(_: AllocFailed<T>) -> Self {
        ConfigError::OutOfMemory
    }
}
