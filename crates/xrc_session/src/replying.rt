//! The reply to a line, in one buffer.

ghost use Rattle.std.specs.Prelude.{◌≡◌, ◌++◌, [], OnOk};
ghost use Rattle.std.specs.Option.{option_copied};
ghost use Rattle.xrc_session.specs.Replying.{causes_in, reply_composed, reported_site, time_said};
ghost use Rattle.xquery_report.specs.Reports.{report_text};
ghost use Rattle.xrc_session.specs.States.{site_in};

use crate::answering::LineAnswer;
use crate::place::SessionPlace;
use mover::Lane;
use pair_table::Command;
use site_store::Site;
use std::alloc::Global;
use tod_stamp::Stamp;
use xquery_report::{ControlList, reply, report};
use xrc_command::Line;
use xrc_edge::{Bytes, NoMemory};

/// The text of a line's reply, and the causes of breaks that a report says.
#[derive(Drop)]
pub(crate) struct ReplyText {
    bytes: Bytes,
    causes: ControlList,
}

impl ReplyText {
    /// The text with no bytes.
    pub(crate) fn make(alloc: Global) -> ReplyText
        ensures { result.bytes ≡ [] }
    {
        ReplyText {
            bytes: Bytes::make(alloc),
            causes: ControlList::make(alloc),
        }
    }

    pub(crate) fn as_bytes(&self) -> &[u8]
        ensures { result.now ≡ self.now.bytes }
    {
        self.bytes.as_slice()
    }

    /// Takes, for each controller in order, why its trace broke, in place of what stood there.
    fn take_causes<S>(&mut self, alloc: Global, traces: &[Lane<S>]) -> Result<(), NoMemory>
        ensures causes { OnOk result (self.new.causes ≡ causes_in traces.now) }
        ensures bytes { self.new.bytes ≡ self.old.bytes }
    {
        self.causes.truncate(0);
        for control in 0..traces.len() {
            let broken = traces[control].broken();
            self.causes.push(alloc, broken.map(|(_, cause)| cause))?;
        }
        Ok(())
    }

    /// Puts the report of a session as its site and its traces stand.
    fn put_report<S, V>(
        &mut self,
        alloc: Global,
        site: &Site<V>,
        traces: &[Lane<S>],
    ) -> Result<(), NoMemory>
        ensures { OnOk result (self.new.bytes ≡ self.old.bytes ++ report_text site.now.table site.now.level site.now.time (causes_in traces.now)) }
    {
        self.take_causes(alloc, traces)?;
        let (level, time) = (site.level(), site.time());
        report(
            alloc,
            site.table(),
            level,
            time,
            &self.causes,
            &mut self.bytes,
        )
    }

    /// Composes the reply to a line in place of what stood there. The report comes first, if the line asks for it and isn't refused.
    pub(crate) fn compose<S, V>(
        &mut self,
        alloc: Global,
        place: &SessionPlace<V>,
        traces: &[Lane<S>],
        line: &Line,
        answered: &LineAnswer,
    ) -> Result<(), NoMemory>
        ensures { OnOk result (self.new.bytes ≡ reply_composed (site_in place.now) traces.now line.now answered.now) }
    {
        self.bytes.truncate(0);
        if let Some(site) = asked_site(place, line, answered) {
            self.put_report(alloc, site, traces)?;
        }
        let (told, tracks) = (told_time(place), answered.tracks);
        let (time, command) = (line.time, &line.command);
        reply(
            alloc,
            time,
            command,
            &answered.answer,
            tracks,
            told,
            &mut self.bytes,
        )
    }
}

/// The site of which a line asks the report, if it does and isn't refused.
fn asked_site<'a, V>(
    place: &'a SessionPlace<V>,
    line: &Line,
    answered: &LineAnswer,
) -> Option<&'a Site<V>>
    ensures { option_copied result ≡ reported_site (site_in place.now) line.now.command answered.now.answer }
{
    match (place, line.command) {
        (SessionPlace::Started(site), Command::Query) if answered.answer.is_ok() => Some(site),
        _ => None,
    }
}

/// The session's time, which a reply says from the start on.
fn told_time<V>(place: &SessionPlace<V>) -> Option<Stamp>
    ensures { result ≡ time_said (site_in place.now) }
{
    match place {
        SessionPlace::Unstarted(_) => None,
        SessionPlace::Started(site) => Some(site.time()),
    }
}
