//! The lists of words that are command lines.

/// Each list on a line of its own, as an operator types it.
pub(crate) const COMMANDS: &str = "give one of these lists
    xrc run SESSION STORAGE
    xrc recover SESSION
    xrc advance SESSION
    xrc copy SESSION SHIFT
    xrc query SESSION
    xrc init DEVICE SERIAL CYLINDERS
    xrc generate NUMBER";
