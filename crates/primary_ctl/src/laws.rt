//! The laws of primaries.

ghost use Rattle.primary_ctl.specs.Primaries.{BatchesMakeThePrimary};

/// The batches of a trace up to a time make of the base track what the primary holds at that time.
pub fn batches_make_the_primary()
    ensures { BatchesMakeThePrimary }
{}
