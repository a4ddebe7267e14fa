//! The limits of a session, of its site, of its script and of its traces. Each is said here alone. What follows from a format stands with
//! that format.

/// The most controllers of a session, which has one trace for each.
pub const MOST_CONTROLS: usize = 16;

/// The most volumes of a controller: as many as the header of its trace may name.
pub const MOST_CONTROL_VOLUMES: u16 = 32;

/// The most volumes of a site. Arrays with a place for each device are that long, so no call takes memory for them.
pub const MOST_SITE_VOLUMES: usize = 64;

/// The fewest journals of a site: one is switched to while the records of another still count.
pub const FEWEST_JOURNALS: u16 = 2;

/// The most journals of a site.
pub const MOST_JOURNALS: u16 = 16;

/// The most cylinders of a volume, as version 2 of the formats can say it.
pub const MOST_CYLINDERS: u32 = 1_000_000;

/// The most cylinders of a volume that version 1 of a trace or of a row can say.
pub const MOST_NARROW_CYLINDERS: u16 = 65_520;

/// A cylinder has this many tracks.
pub const TRACKS_OF_CYLINDER: u32 = 15;

/// The most bytes of a trace that are read: a field that ends after them is cut there.
pub const LONGEST_TRACE: u64 = 1 << 40;

/// The most lines of a script.
pub const MOST_LINES: u32 = 100_000;

/// The most bytes of a line before its line feed.
pub const LONGEST_LINE: usize = 256;

/// The most bytes of a text: those of the longest line, and one more, by which a longer line is known.
pub const LONGEST_TEXT: usize = LONGEST_LINE + 1;
