//! How many threads the readers' parts of a round are worth. Nothing rests on it but speed.

use crate::lane::Lane;
use tod_stamp::Stamp;
use xrc_edge::MOST_CONTROLS;

/// The number of threads for the readers' parts of a round, beside the mover's: 0 where they are made in the mover's thread. That is so
/// where no reader has anything to do, or one alone has, and most likely little. Readers wait for each other only within their sources,
/// so as soon as two of them may ask their sources, each has a thread of its own.
pub(crate) fn threads_for<S>(lanes: &[Lane<S>], limit: Stamp) -> usize {
    let mut is_brief = None;
    for place in 0..lanes.len() {
        if lanes[place].is_idle(limit) {
            continue;
        }
        if is_brief.is_some() {
            return MOST_CONTROLS;
        }
        is_brief = Some(lanes[place].is_brief());
    }
    match is_brief {
        Some(false) => 1,
        Some(true) | None => 0,
    }
}
