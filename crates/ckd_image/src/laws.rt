//! The laws of device images. Each is the contract of a public function without parameters.

ghost use Rattle.ckd_image.specs.Laws.{HeadersOfImagesReadBack, ImageTracksAreSpelled, ImageTracksReadBack};

/// What a track spells is read again, whatever stands after its end mark.
pub fn image_tracks_are_read_back()
    ensures { ImageTracksReadBack }
{}

/// What is read is a track, and was spelled so.
pub fn image_tracks_are_read()
    ensures { ImageTracksAreSpelled }
{}

/// What a header spells is read again.
pub fn headers_are_read_back()
    ensures { HeadersOfImagesReadBack }
{}
