ghost use Rattle.bao_config.specs.Config.{config_data};
ghost use Rattle.bao_wellformed.specs.WellFormed.{IsWellFormed};

use crate::Ill;
use bao_config::Config;
use thiserror::Error;

/// A well-formed configuration.
#[derive(Debug, Drop)]
pub struct Checked {
    pub(crate) config: Config,
    pub ghost well_formed: { IsWellFormed (config_data config) },
}

/// Why a configuration isn't taken.
#[derive(Clone, Copy, Debug, PartialEq, Eq, Error)]
pub enum CheckError {
    /// It breaks a rule: the first break of the first rule that is broken.
    #[error("the configuration isn't well formed")]
    Ill(Ill),
    #[error("out of memory")]
    OutOfMemory,
}

impl Checked {
    ghost use Rattle.std.specs.Prelude.{◌≡◌};
    ghost use Rattle.bao_wellformed.specs.Checked.{checked_data};

    /// The configuration.
    pub fn config(&self) -> &Config
        ensures { config_data result.now ≡ checked_data self.now }
    {
        &self.config
    }
}
