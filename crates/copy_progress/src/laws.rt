//! The laws of what is done and copied.

ghost use Rattle.copy_progress.specs.Laws.{ClearingDoesNothing};

/// Where nothing is done on a target, nothing is while its gates are closed.
pub fn clearing_does_nothing()
    ensures { ClearingDoesNothing }
{}
