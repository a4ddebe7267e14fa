//! The laws of records' and marks' rows.

ghost use Rattle.record_rows.specs.Laws.{AfterMarksAreChanges, AfterMarksChangeStates, AfterMarksCount, AfterMarksGroup, AfterMarksMayCome, AfterMarksTell};
ghost use Rattle.record_rows.specs.Laws.{ChangedRowsMake, ChangesGoOn, ChangesMayGoOn, HitsAddUp, HitsAreChanges, HitsChangeStates, HitsCount, HitsMayCome, HitsTell};
ghost use Rattle.record_rows.specs.Laws.{MarkedRecordsAreChanges, MarkedRecordsCount, MarkedRecordsMayCome, MarksAreChanges, MarksCount, MarksMayCome, MarksTell};
ghost use Rattle.record_rows.specs.Laws.{OnlyFailedAreHit, RecordsAreChanges, RecordsChangeStates, RecordsCount, RecordsGroup, RecordsMayCome, RecordsTell, ToldHitNoMore};

/// The rows after a record come by breaks, maturing rows and hits, in this order, which may all come at its cut.
pub fn records_are_changes()
    ensures rows { RecordsAreChanges }
    ensures may_come { RecordsMayCome }
{}

/// So do the rows after hits alone: of a record of suspensions, of a mark that no record follows, and after a command's rows.
pub fn hits_are_changes()
    ensures rows { HitsAreChanges }
    ensures may_come { HitsMayCome }
{}

/// A mark that is made for a record tells hits, whose reach then comes with the record.
pub fn marks_are_changes()
    ensures rows { MarksAreChanges }
    ensures may_come { MarksMayCome }
    ensures record_rows { AfterMarksAreChanges }
    ensures record_may_come { AfterMarksMayCome }
    ensures both { MarkedRecordsAreChanges }
    ensures both_may_come { MarkedRecordsMayCome }
{}

/// By records and marks devices suspend the rows of failed volumes, all of them and no others. No suspended row goes on.
pub fn failed_jobs_are_told()
    ensures after { RecordsTell }
    ensures after_mark { AfterMarksTell }
    ensures hits { HitsTell }
    ensures mark { MarksTell }
    ensures only_failed { OnlyFailedAreHit }
    ensures no_more { ToldHitNoMore }
{}

/// After a group's record no row waits for its copy, one becomes duplex only by a done plan, and none goes on whose controller broke.
pub fn groups_are_told()
    ensures after { RecordsGroup }
    ensures after_mark { AfterMarksGroup }
{}

/// The rows that a record changes, put in order in the places of their devices' rows, make the rows after it.
pub fn changed_rows_make_them()
    ensures make { ChangedRowsMake }
    ensures after { RecordsChangeStates }
    ensures after_mark { AfterMarksChangeStates }
    ensures hits { HitsChangeStates }
{}

/// A record or a mark hits each device that is hit now once, and a mark and the record that it is made for hit none twice.
pub fn hits_are_counted()
    ensures after { RecordsCount }
    ensures after_mark { AfterMarksCount }
    ensures hits { HitsCount }
    ensures mark { MarksCount }
    ensures both { MarkedRecordsCount }
{}

/// Changes in a row compose: what they make of rows, whether they may come, and how often they hit a device.
pub fn changes_go_on()
    ensures rows { ChangesGoOn }
    ensures may_come { ChangesMayGoOn }
    ensures hits { HitsAddUp }
{}
