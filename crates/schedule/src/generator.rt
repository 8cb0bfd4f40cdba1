//! The numbers that a workload is generated from.
ghost use Rattle.std.specs.Prelude.{◌≡◌, ◌/◌, ◌^◌, ◌<◌};
ghost use Rattle.schedule.specs.Workload.{next_state};

/// What a state is multiplied with.
const MULTIPLIER: u64 = 6_364_136_223_846_793_005;
/// What is added to the product.
const INCREMENT: u64 = 1_442_695_040_888_963_407;

/// Numbers of 31 bits that are drawn one after the other.
#[derive(Drop)]
pub(crate) struct Numbers {
    pub(crate) state: u64,
}

impl Numbers {
    /// The next number: the upper bits of the next state, which are the better mixed ones.
    pub(crate) fn draw(&mut self) -> u32
        ensures state { self.new.state ≡ next_state self.old.state }
        ensures number { result ≡ next_state self.old.state / 2 ^ 33 }
    {
        self.state = self.state.wrapping_mul(MULTIPLIER).wrapping_add(INCREMENT);
        (self.state >> 33) as u32
    }
}
