/// Whether a virtual core runs.
#[derive(Clone, Copy, Debug, Default, PartialEq, Eq)]
pub enum Power {
    On,
    #[default]
    Off,
    /// Stopped by an access that stage 2 refused. A parked core doesn't run, and isn't off either.
    Parked {
        /// The syndrome of the refused access, as ESR_EL2 gives it.
        esr: u64,
        /// The address of the first byte that was refused, as FAR_EL2 gives it.
        far: u64,
    },
}
