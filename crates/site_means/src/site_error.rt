use crash_plant::Device;
use thiserror::Error;
use xrc_edge::NoMemory;

/// Why a site's devices mean nothing, or there is no telling what they mean. The message of each is its name.
#[derive(Debug, Drop, PartialEq, Eq, Error)]
pub enum SiteError {
    /// No gate of the control is open: no session has begun on the site.
    #[error("NoSession")]
    NoSession,
    /// A rule is broken at this place of the device.
    #[error("Damaged")]
    Damaged(Device, u64),
    /// The device has failed.
    #[error("Fault")]
    Fault(Device),
    /// The device needs this many bytes.
    #[error("TooSmall")]
    TooSmall(Device, u64),
    #[error("NoMemory")]
    NoMemory,
}

impl From<NoMemory> for SiteError {
    ghost use Rattle.std.specs.Prelude.{◌≡◌};
    ghost use Rattle.site_means.specs.declared.site_error.SiteError.TheVariants as errors;

    ghost from_gives = { λ _ e. e ≡ errors.NoMemory };

    fn from(_e: NoMemory) -> SiteError {
        SiteError::NoMemory
    }
}
