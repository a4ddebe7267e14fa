//! Law: a session that has just started has what its first epoch begins with.

ghost use Rattle.xrc_session.specs.Beginnings.{StartedSessionsStand};

use crash_plant::Plant;

/// A session that has just started has what an epoch begins with: it has no row, no controller has broken, and whatever a crash leaves
/// means the session's start.
pub fn started_sessions_stand<P: Plant>(plant: &P)
    ensures { StartedSessionsStand P.tells (P.state plant.now) }
{}
