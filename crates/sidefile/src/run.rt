//! Taking a run.

ghost use Rattle.std.specs.Prelude.{◌≡◌, ◌≤◌, [], ◌∷◌, ◌++◌, None, Some, length, OnOk};
ghost use Rattle.ckd_track.specs.declared.layout.TheConstants.{WRITES_OF_RUN};
ghost use Rattle.write_trace.specs.Entries.{stamp_of as stamp_of_entry};
ghost use Rattle.write_trace.specs.Writes.{writes_of};
ghost use Rattle.sidefile.specs.Looks.{TakesRun, AddsWrites};

use crate::look::{Look, look_ahead};
use ckd_track::{Cause, WRITES_OF_RUN, WriteList};
use std::alloc::Global;
use tod_stamp::Stamp;
use write_trace::{Entry, TraceReader};
use xrc_edge::Source;

/// The stamp of an entry.
pub fn stamp_of(entry: &Entry) -> Stamp
    ensures { result.0 ≡ stamp_of_entry entry.now }
{
    match entry {
        Entry::Written(write) => write.stamp,
        Entry::Idle(stamp) => *stamp,
    }
}

/// Puts the write of an entry, if it has one, after the writes of its run. Otherwise says why it doesn't stand there.
pub fn add(alloc: Global, writes: &mut WriteList, entry: Entry) -> Result<(), Look>
    requires { length writes.old ≤ WRITES_OF_RUN }
    ensures { AddsWrites writes.old writes.new entry result }
{
    let Entry::Written(write) = entry else {
        return Ok(());
    };
    if writes.len() == WRITES_OF_RUN {
        return Err(Look::Bad(Cause::Crowded(write.stamp)));
    }
    match writes.push(alloc, write) {
        Ok(()) => Ok(()),
        Err(_) => Err(Look::NoMemory),
    }
}

/// Takes the entries of a stamp, and puts their writes after those that are there. Gives what stands after them.
pub fn take_run<S: Source>(
    reader: &mut TraceReader,
    alloc: Global,
    source: &mut S,
    stamp: Stamp,
    writes: &mut WriteList,
) -> Look
    requires goes_on { reader.old.stopped ≡ None }
    requires last { reader.old.last ≡ stamp.0 }
    requires room { length writes.old ≤ WRITES_OF_RUN }
    ensures { TakesRun (S.left source.old) (S.left source.new) (S.faults source.old) (S.faults source.new) reader.old reader.new stamp.0 writes.old writes.new result }
{
    loop {
        let found = look_ahead(reader, alloc, source);
        let Look::Next(entry) = found else {
            return found;
        };
        if stamp_of(&entry) != stamp {
            return Look::Next(entry);
        }
        if let Err(why) = add(alloc, writes, entry) {
            return why;
        }
    }
}
