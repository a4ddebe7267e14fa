//! The law of a line that ends a session.

ghost use Rattle.xrc_session.specs.EndingLaws.{EndingsAreAnsweredExactly};

/// A line whose command ends the session is answered, once its reply is exact.
pub fn endings_are_answered_exactly()
    ensures { EndingsAreAnsweredExactly }
{}
