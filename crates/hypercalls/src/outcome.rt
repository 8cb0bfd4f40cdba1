ghost use Rattle.std.specs.Prelude.{◌≡◌};
ghost use Rattle.hypercalls.specs.Calls.{answer_of};

/// What comes of a call.
#[derive(Clone, Copy, Debug, PartialEq, Eq)]
pub enum Outcome {
    /// An answer, and nothing else.
    Answer(u64),
    /// The other users of this shared memory hear of this event.
    Ring { shmem: u8, event: u8 },
    /// The calling core is off.
    Off,
    /// The VM's core of this number is reset, and is on with this PC and this x0.
    On { core: u8, start: u64, arg: u64 },
    /// Every core of the VM is off.
    SystemOff,
}

/// The answer of a call that did what it was asked for: SUCCESS.
const SUCCESS: u64 = 0;

impl Outcome {
    /// What x0 of the calling core becomes. None exactly where that core is off after the call.
    pub fn answer(self) -> Option<u64>
        ensures { result ≡ answer_of self }
    {
        match self {
            Outcome::Answer(value) => Some(value),
            Outcome::Ring { .. } | Outcome::On { .. } => Some(SUCCESS),
            Outcome::Off | Outcome::SystemOff => None,
        }
    }
}
