//! The reader of a trace's entries.

ghost use Rattle.std.specs.Prelude.{◌≡◌, ◌↔◌, ◌≤◌, [], length, false, None, Some, Err, MatchResult, IsTrue};
ghost use Rattle.xrc_edge.specs.declared.limits.TheConstants.{MOST_CONTROL_VOLUMES};
ghost use Rattle.write_trace.specs.Headers.{are_volumes};
ghost use Rattle.write_trace.specs.Entries.{stamp_of};

use crate::entry::Entry;
use crate::fields::entry_in;
use crate::header::VolumeList;
use crate::next::{Next, Stopped};
use crate::stop::NoRead;
use crate::trace::TraceEnd;
use crate::window::{Refill, Window};
use std::alloc::Global;
use std::marker::Model;
use tod_stamp::Stamp;
use xrc_edge::{NoMemory, Source};

/// Reads the entries of a trace, one after another. It holds bytes of its source, so each call takes the source on which it was
/// started, which nothing else pulls meanwhile.
#[derive(Drop)]
pub struct TraceReader {
    window: Window,
    version: u8,
    volumes: VolumeList,
    last: Stamp,
    stopped: Option<Stopped>,
}

impl Model for TraceReader {
    ghost use Rattle.xrc_edge.specs.declared.limits.TheConstants.{MOST_CONTROL_VOLUMES};
    ghost use Rattle.std.specs.Prelude.{◌≤◌, [], length, IsTrue};
    ghost use Rattle.write_trace.specs.Headers.{are_volumes};
    ghost use Rattle.write_trace.specs.Answers.{ReaderState};

    ghost Value = { ReaderState };

    ghost view = { λ r. record { version = r.version; volumes = r.volumes; last = r.last.0; left = r.window; stopped = r.stopped } };

    ghost invariant = { λ r. (length r.volumes ≤ MOST_CONTROL_VOLUMES) × IsTrue (are_volumes r.version [] r.volumes) };
}

impl Stopped {
    ghost use Rattle.write_trace.specs.Answers.{answer_of};

    /// How the trace ends, where it does.
    pub(crate) fn end(self) -> Result<TraceEnd, NoMemory>
        ensures { MatchResult result (λ end. self ≡ Stopped.AtEnd end) (λ error. self ≡ Stopped.NoMemory) }
    {
        match self {
            Stopped::AtEnd(end) => Ok(end),
            Stopped::NoMemory => Err(NoMemory),
        }
    }

    fn answer(self) -> Next
        ensures { result ≡ answer_of self }
    {
        match self {
            Stopped::AtEnd(TraceEnd::Ended) => Next::Ended,
            Stopped::AtEnd(TraceEnd::BadTrace(place)) => Next::BadTrace(place),
            Stopped::AtEnd(TraceEnd::ReadFault) => Next::ReadFault,
            Stopped::NoMemory => Next::NoMemory,
        }
    }
}

impl TraceReader {
    ghost use Rattle.write_trace.specs.Answers.{AnswersNext, answer_of};
    ghost use Rattle.write_trace.specs.Steps.{answer_from, IsCut, Tries, Continues};

    /// A reader of the entries that follow a header of these volumes, which ends where the window begins.
    pub(crate) fn after_header(window: Window, version: u8, volumes: VolumeList) -> TraceReader
        requires number { length volumes ≤ MOST_CONTROL_VOLUMES }
        requires rules { IsTrue (are_volumes version [] volumes) }
        ensures { result ≡ record { version = version; volumes = volumes; last = 0; left = window; stopped = None } }
    {
        TraceReader {
            window,
            version,
            volumes,
            last: Stamp(0),
            stopped: None,
        }
    }

    /// The next entry, or why there is none.
    pub fn next<S: Source>(&mut self, alloc: Global, source: &mut S) -> Next
        ensures answer { self.old.stopped ≡ None → AnswersNext (S.left source.old) (S.left source.new) (S.faults source.old) (S.faults source.new) self.old self.new result }
        ensures again { (why : Stopped) → self.old.stopped ≡ Some why → (result ≡ answer_of why) × (self.new ≡ self.old) }
        ensures unasked { (why : Stopped) → self.old.stopped ≡ Some why → source.new ≡ source.old }
    {
        match self.next_entry(alloc, source) {
            Ok(entry) => Next::from(entry),
            Err(why) => why.answer(),
        }
    }

    /// The same, with an entry or why there is none.
    pub(crate) fn next_entry<S: Source>(
        &mut self,
        alloc: Global,
        source: &mut S,
    ) -> Result<Entry, Stopped>
        ensures answer { self.old.stopped ≡ None → AnswersNext (S.left source.old) (S.left source.new) (S.faults source.old) (S.faults source.new) self.old self.new (answer_from result) }
        ensures again { (why : Stopped) → self.old.stopped ≡ Some why → (result ≡ Err why) × (self.new ≡ self.old) }
        ensures unasked { (why : Stopped) → self.old.stopped ≡ Some why → source.new ≡ source.old }
        ensures number { length self.old.volumes ≤ MOST_CONTROL_VOLUMES }
        ensures rules { IsTrue (are_volumes self.old.version [] self.old.volumes) }
    {
        match self.stopped {
            Some(why) => Err(why),
            None => self.read_on(alloc, source),
        }
    }

    /// Whether it reads no further.
    pub fn has_stopped(&self) -> bool
        ensures { result ≡ false ↔ self.now.stopped ≡ None }
    {
        self.stopped.is_some()
    }

    /// How many bytes it holds of its source that are not read yet.
    pub fn held(&self) -> usize
        ensures { result ≡ length self.now.left.bytes }
    {
        self.window.held()
    }

    /// The place in the trace up to which its entries were read.
    pub fn place(&self) -> u64
        ensures { result ≡ self.now.left.place }
    {
        self.window.place()
    }

    fn read_on<S: Source>(&mut self, alloc: Global, source: &mut S) -> Result<Entry, Stopped>
        requires { self.old.stopped ≡ None }
        ensures { AnswersNext (S.left source.old) (S.left source.new) (S.faults source.old) (S.faults source.new) self.old self.new (answer_from result) }
    {
        loop {
            match self.attempt(alloc) {
                Ok(entry) => return Ok(entry),
                Err(NoRead::Memory) => return Err(self.stop(Stopped::NoMemory)),
                Err(NoRead::Broken(_)) => {
                    let place = self.window.place();
                    return Err(self.stop(Stopped::AtEnd(TraceEnd::BadTrace(place))));
                }
                Err(NoRead::Cut(_)) => {
                    if let Some(end) = self.more(source) {
                        return Err(self.stop(Stopped::AtEnd(end)));
                    }
                }
            }
        }
    }

    /// The entry that the bytes held begin with, if they hold one.
    fn attempt(&mut self, alloc: Global) -> Result<Entry, NoRead>
        ensures { Tries self.old self.new result }
    {
        let place = self.window.place();
        let volumes = self.volumes.as_slice();
        let visible = self.window.visible();
        let (entry, used) = entry_in(alloc, self.version, volumes, self.last.0, place, visible)?;
        self.window.skip(used);
        self.last = stamp(&entry);
        Ok(entry)
    }

    /// Takes one more piece where the bytes held are cut within an entry, or says how the trace ends.
    fn more<S: Source>(&mut self, source: &mut S) -> Option<TraceEnd>
        requires { IsCut self.old }
        ensures { Continues (S.left source.old) (S.left source.new) (S.faults source.old) (S.faults source.new) self.old self.new result }
    {
        let place = self.window.place();
        if self.window.is_full_trace() {
            return Some(TraceEnd::BadTrace(place));
        }
        match self.window.refill(source) {
            Refill::More => None,
            Refill::End if self.window.is_empty() => Some(TraceEnd::Ended),
            Refill::End => Some(TraceEnd::BadTrace(place)),
            Refill::Fault => Some(TraceEnd::ReadFault),
        }
    }

    /// Reads no further.
    pub(crate) fn stop(&mut self, why: Stopped) -> Stopped
        ensures same { result ≡ why }
        ensures stopped { self.new ≡ record { version = self.old.version; volumes = self.old.volumes; last = self.old.last; left = self.old.left; stopped = Some why } }
    {
        self.stopped = Some(why);
        why
    }
}

fn stamp(entry: &Entry) -> Stamp
    ensures { result.0 ≡ stamp_of entry.now }
{
    match entry {
        Entry::Written(write) => write.stamp,
        Entry::Idle(stamp) => *stamp,
    }
}
