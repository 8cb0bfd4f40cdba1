//! A block from the allocator, and its way back.
ghost use Rattle.std.specs.Prelude.{◌≡◌, ◌<◌, ◌^◌, None, replicate, IfOk};
ghost use Rattle.phys_memory.specs.Block.{IsOneBlock};

use crate::cells::{Base, Cells, Deed};
use std::alloc::{AllocError, Allocator};
use std::marker::PhantomData;

/// A block of `len` bytes, none of them written.
pub(crate) fn allocate<A: Allocator>(
    alloc: &A,
    len: usize,
) -> Result<(Base, Cells, Deed<A>), AllocError>
    requires { len < 2 ^ 63 }
    ensures block { IfOk result (λ r. IsOneBlock r.0 r.1 r.2 alloc.now len) }
    ensures slots { IfOk result (λ r. r.1.slots ≡ replicate len None) }
{
    match alloc.allocate(len, 1) {
        Ok(ptr) => Ok((
            Base { ptr },
            Cells {
                marker: PhantomData,
            },
            Deed {
                marker: PhantomData,
            },
        )),
        Err(error) => Err(error),
    }
}

/// Gives the block back, whatever its bytes are.
pub(crate) fn deallocate<A: Allocator>(
    alloc: &A,
    base: Base,
    len: usize,
    cells: Cells,
    deed: Deed<A>,
)
    requires { IsOneBlock base cells deed alloc.now len }
{
    let Cells { marker: _ } = cells;
    let Deed { marker: _ } = deed;
    // SAFETY: `alloc` gave the block for this many bytes, and nobody owns any of them now.
    unsafe {
        alloc.deallocate(base.ptr, len, 1);
    }
}
