use site_means::SiteError;
use thiserror::Error;
use tod_stamp::Session;
use xrc_edge::NoMemory;

/// Why nothing was recovered, or not all of it. The message of each is its name.
#[derive(Debug, Drop, PartialEq, Eq, Error)]
pub enum RecoverError {
    /// What the devices mean can't be told, a volume is too small, or there was no memory.
    #[error("Site")]
    Site(SiteError),
    /// The devices are those of this session.
    #[error("Other")]
    Other(Session),
}

impl From<SiteError> for RecoverError {
    ghost use Rattle.std.specs.Prelude.{◌≡◌};
    ghost use Rattle.xrecover.specs.declared.recover_error.RecoverError.TheVariants as errors;

    ghost from_gives = { λ site e. e ≡ errors.Site site };

    fn from(e: SiteError) -> RecoverError {
        RecoverError::Site(e)
    }
}

impl From<NoMemory> for RecoverError {
    ghost use Rattle.std.specs.Prelude.{◌≡◌};
    ghost use Rattle.site_means.specs.declared.site_error.SiteError.TheVariants as site_errors;
    ghost use Rattle.xrecover.specs.declared.recover_error.RecoverError.TheVariants as errors;

    ghost from_gives = { λ _ e. e ≡ errors.Site site_errors.NoMemory };

    fn from(_e: NoMemory) -> RecoverError {
        RecoverError::Site(SiteError::NoMemory)
    }
}
