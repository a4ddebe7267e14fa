//! The laws of images.

ghost use Rattle.ckd_track.specs.Images.{ReadsBack, ReadsImages};

/// What an image spells is read again, whatever follows it.
pub fn images_read_back()
    ensures { ReadsBack }
{}

/// What is read is a track, and was spelled so.
pub fn images_are_read()
    ensures { ReadsImages }
{}
