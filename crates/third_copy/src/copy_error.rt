use site_means::SiteError;
use thiserror::Error;
use xrc_edge::NoMemory;
use xrecover::RecoverError;

/// Why nothing was copied. The message of each is its name.
#[derive(Debug, Drop, PartialEq, Eq, Error)]
pub enum CopyError {
    /// The site can't be redone, or there was no memory.
    #[error("Recover")]
    Recover(RecoverError),
    /// The volume of this device, which is a duplex pair's, has no target.
    #[error("NoTarget")]
    NoTarget(u16),
}

impl From<RecoverError> for CopyError {
    ghost use Rattle.std.specs.Prelude.{◌≡◌};
    ghost use Rattle.third_copy.specs.declared.copy_error.CopyError.TheVariants as errors;

    ghost from_gives = { λ error e. e ≡ errors.Recover error };

    fn from(e: RecoverError) -> CopyError {
        CopyError::Recover(e)
    }
}

impl From<NoMemory> for CopyError {
    ghost use Rattle.std.specs.Prelude.{◌≡◌};
    ghost use Rattle.site_means.specs.declared.site_error.SiteError.TheVariants as site_errors;
    ghost use Rattle.xrecover.specs.declared.recover_error.RecoverError.TheVariants as recover_errors;
    ghost use Rattle.third_copy.specs.declared.copy_error.CopyError.TheVariants as errors;

    ghost from_gives = { λ _ e. e ≡ errors.Recover (recover_errors.Site site_errors.NoMemory) };

    fn from(_e: NoMemory) -> CopyError {
        CopyError::Recover(RecoverError::Site(SiteError::NoMemory))
    }
}
