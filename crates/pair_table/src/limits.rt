//! The numbers of rows and of tables. Each is said here alone.

use xrc_edge::MOST_SITE_VOLUMES;

/// The bytes of a row.
pub const ROW_LENGTH: usize = 38;

/// The bytes of a row of version 1.
pub const NARROW_ROW_LENGTH: usize = 30;

/// The most rows of a table: one for each volume of a site.
pub const MOST_ROWS: usize = MOST_SITE_VOLUMES;
