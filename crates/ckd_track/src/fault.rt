//! Why bytes begin no image.

use xrc_edge::NoMemory;

/// The first fault in the order of the bytes, or want of memory, which may come before any.
#[derive(Clone, Copy, Debug, PartialEq, Eq)]
pub enum ImageError {
    /// The bytes end within the image.
    Short,
    /// The sizes of the records pass a track's capacity.
    TooBig,
    /// The record at this place has a number that isn't above the last, or 0. At place 0 it is the count that is above 255.
    Order(u32),
    /// There was no memory for the track.
    NoMemory,
}

impl From<NoMemory> for ImageError {
    ghost use Rattle.std.specs.Prelude.{◌≡◌};
    ghost use Rattle.ckd_track.specs.declared.fault.ImageError.TheVariants as errors;

    ghost from_gives = { λ _ e. e ≡ errors.NoMemory };

    fn from(_error: NoMemory) -> ImageError {
        ImageError::NoMemory
    }
}
