ghost use Rattle.std.specs.Prelude.{◌≡◌, ◌≤◌, ℕ, IfOk, OnErr, OnOk};
ghost use Rattle.bao_types.specs.ByteRange.{address_space_end};
ghost use Rattle.region_list.specs.Layers.{AreInSpace, IsInSpace};
ghost use Rattle.region_list.specs.Ranges.{class_of_byte, IsUnchanged, IsLaidOver};
ghost use Rattle.region_list.specs.Runs.{AreMaximalRuns};

use crate::{Run, layers};
use bao_types::{ByteRange, Class, OutOfMemory};
use std::alloc::Global;
use std::marker::Model;

/// The class of each byte of an address space of 2^48 bytes.
///
/// Every range ends at or below 2^48. A range of no bytes changes nothing.
#[derive(Debug, Drop)]
pub struct Ranges {
    /// Ranges with their classes. Where two share a byte, the later one has it.
    layers: Vec<Run>,
}

impl Model for Ranges {
    ghost use Rattle.region_list.specs.Layers.{AreInSpace};
    ghost use Rattle.region_list.specs.Ranges.{RangesData};

    ghost Value = { RangesData };

    ghost view = { λ r. record { layers = r.layers.items } };

    ghost invariant = { λ r. AreInSpace r.layers.items };
}

impl Ranges {
    /// Every byte has class Nothing.
    pub fn new(alloc: Global) -> Self
        ensures { (at : ℕ) → class_of_byte result at ≡ Class.Nothing }
    {
        Ranges {
            layers: Vec::new(alloc),
        }
    }

    /// Gives the bytes of `range` this class, whatever they had before.
    pub fn insert(
        &mut self,
        alloc: Global,
        range: ByteRange,
        class: Class,
    ) -> Result<(), OutOfMemory>
        requires { IsInSpace range }
        ensures ok { OnOk result (IsLaidOver self.old self.new range class) }
        ensures err { OnErr result (IsUnchanged self.old self.new) }
    {
        self.layers = layers::laid_over(alloc, &self.layers, Run { range, class })?;
        Ok(())
    }

    /// Leaves a hole: gives the bytes of `range` class Nothing.
    pub fn cut(&mut self, alloc: Global, range: ByteRange) -> Result<(), OutOfMemory>
        requires { IsInSpace range }
        ensures ok { OnOk result (IsLaidOver self.old self.new range Class.Nothing) }
        ensures err { OnErr result (IsUnchanged self.old self.new) }
    {
        self.insert(alloc, range, Class::Nothing)
    }

    /// The class of the byte at `at`.
    pub fn class_at(&self, at: u64) -> Class
        ensures value { result ≡ class_of_byte self.now at }
        ensures beyond { address_space_end ≤ at → result ≡ Class.Nothing }
    {
        layers::class_at(&self.layers, at)
    }

    /// The maximal runs of bytes of one class other than Nothing, in address order.
    pub fn runs(&self, alloc: Global) -> Result<Vec<Run>, OutOfMemory>
        ensures maximal { IfOk result (λ runs. AreMaximalRuns (class_of_byte self.now) runs.items) }
        ensures in_space { IfOk result (λ runs. AreInSpace runs.items) }
    {
        layers::runs(alloc, &self.layers)
    }
}
