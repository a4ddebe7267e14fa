//! A session, line by line.

ghost use Rattle.std.specs.Prelude.{◌≡◌, ◌⊎◌, ◌≤◌, true, false, Err, None, Some, IfErr, IfOk, IfSome, IsOk, IsSome, OnOk};
ghost use Rattle.xrc_edge.specs.declared.limits.TheConstants.{MOST_CONTROLS};
ghost use Rattle.crash_plant.specs.Calls.{HearsNothing, NoneLent, Silent};
ghost use Rattle.consistency.specs.Stages.{ScriptRun};
ghost use Rattle.mover.specs.Epochs.{AreSameLanes};
ghost use Rattle.xrc_status.specs.declared.stop.Stop.TheVariants as stops;
ghost use Rattle.xrc_session.specs.LinePauses.{AreCountsFrom, IsBetween, IsRunOver};
ghost use Rattle.xrc_session.specs.Frames.{KeepsPlant, SuspendsByCounts};
ghost use Rattle.xrc_session.specs.Lanes.{AllWent, HaveNoReader, TurnOutFrom};
ghost use Rattle.xrc_session.specs.Lines.{MayFinish, IsBegunTable, IsDoneLine, IsNewSession, IsSameSession, IsStartedAt, StandsStartedAt, KeepsStart, IsStartAnswered, StartsByLine};
ghost use Rattle.xrc_session.specs.Openings.{ComesEarly, OpensInOrder, StayGood};
ghost use Rattle.xrc_session.specs.Replying.{level_in};
ghost use Rattle.xrc_session.specs.Runs.{AreLabelsRead};
ghost use Rattle.xrc_session.specs.Starting.{BeginsByLine, IsSafeStart, IsWorkOfStart, RepliesToStart, StandsAfterStart, level_started};
ghost use Rattle.xrc_session.specs.States.{session_time};
ghost use Rattle.xrc_session.specs.Stops.{HasStopCause, StopsByCount};
ghost use Rattle.xrc_session.specs.Steps.{AnswersLine, DoesLine, FinishesRuns};

use crate::answering::{LineAnswer, answer_of, mark};
use crate::kept::SessionParts;
use crate::numbers::check_site;
use crate::opening::open_lanes;
use crate::place::SessionPlace;
use crate::replying::ReplyText;
use crate::starting::Beginning;
use crash_plant::Plant;
use mover::Lane;
use pair_table::{Change, Command, Level, Names, PairTable, Refusal};
use std::alloc::Global;
use std::marker::Model;
use std::sync::Wait;
use std::thread::Threads;
use tod_stamp::Session;
use xrc_command::Line;
use xrc_edge::Source;
use xrc_status::{Stop, say_text};

/// A session as it stands between two lines. The traces' lanes and the plant stay with the caller. `V` is a volume as the plant
/// lends it.
#[derive(Drop)]
pub struct SessionRun<V> {
    session: Session,
    controls: u16,
    kept: SessionParts,
    place: SessionPlace<V>,
    /// Whether an end was answered.
    ended: bool,
    reply: ReplyText,
}

impl<V> Model for SessionRun<V> {
    ghost use Rattle.xrc_session.specs.States.{SessionState, site_in, table_in};

    ghost Value = { SessionState };

    ghost view = { λ run. record {
      session = run.session;
      controls = run.controls;
      names = run.kept.names;
      group = run.kept.group;
      table = table_in run.place;
      site = site_in run.place;
      is_ended = run.ended;
    } };
}

/// The level of a start that was done; None where the answer is none to a start.
fn started_level(answer: &Result<Change, Refusal>, command: Command) -> Option<Level>
    ensures { result ≡ level_in answer.now command }
{
    match (answer, command) {
        (Ok(Change::Started), Command::Start { level }) => Some(level),
        _ => None,
    }
}

impl<V: Drop> SessionRun<V> {
    /// A session that isn't started, over `storage` traces, 1 to 16, whose lanes have no reader yet. It reads the traces' headers and
    /// gives the lanes their readers.
    ///
    /// In this order: `BadSite` exactly where the lanes are not `storage` in number, or the journals are not 2 to 16, or the volumes
    /// not 1 to 64. `TooSmall` names the first of the control, the state and the journals that has fewer bytes than it needs.
    /// `BadHeader` and `HeaderFault` name the first trace whose header leaves its form, is cut, or names a serial that an earlier
    /// trace names. For the first two no source is pulled. No device is called.
    pub fn make<S: Source, P: Plant<Volume = V>>(
        alloc: Global,
        plant: &mut P,
        session: Session,
        storage: u16,
        traces: &mut [Lane<S>],
    ) -> Result<SessionRun<V>, Stop>
        requires storage { (1 ≤ storage) × (storage ≤ MOST_CONTROLS) }
        requires home { NoneLent (P.state plant.old) }
        requires unread { HaveNoReader traces.old }
        ensures opens { OpensInOrder S.left S.faults storage traces.old traces.new (P.state plant.old) result }
        ensures stops { IfErr result (λ stop. ComesEarly stop ⊎ (stop ≡ stops.NoMemory)) }
        ensures between { IfOk result (λ run. IsBetween P.tells run traces.new (P.state plant.new)) }
        ensures fresh { IfOk result (IsNewSession session storage) }
        ensures plant { plant.new ≡ plant.old }
        ensures turn_out { OnOk result (TurnOutFrom S.left S.faults traces.old traces.new) }
        ensures good { OnOk result (StayGood S.left S.faults traces.old traces.new) }
    {
        check_site(plant, storage, traces.len())?;
        let mut names = Names::make(alloc)?;
        open_lanes(alloc, &mut names, traces)?;
        Ok(SessionRun {
            session,
            controls: storage,
            kept: SessionParts::make(alloc, names, storage)?,
            place: SessionPlace::Unstarted(PairTable::make(alloc, session)?),
            ended: false,
            reply: ReplyText::make(alloc),
        })
    }

    /// Starts the session at the time of a line.
    fn start<R: Threads + Wait + Sync, S: Source + Send, P: Plant<Volume = V>>(
        &mut self,
        rt: &R,
        alloc: Global,
        plant: &mut P,
        traces: &mut [Lane<S>],
        level: Level,
        line: &Line,
    ) -> Result<(), Stop>
        requires between { IsBegunTable P.tells self.old traces.old (P.state plant.old) }
        requires time { 1 ≤ line.now.time.0 }
        ensures between { OnOk result (IsBetween P.tells self.new traces.new (P.state plant.new)) }
        ensures started { OnOk result (IsStartedAt level line.now.time.0 self.old self.new) }
        ensures same { IsSameSession self.old self.new }
        ensures went { AllWent S.left S.faults traces.old traces.new }
        ensures lanes { OnOk result (AreSameLanes traces.old traces.new) }
        ensures safe { P.tells → IsSafeStart self.old.session level line.now.time.0 (P.state plant.old) (P.state plant.new) result }
        ensures works { IsWorkOfStart P.tells (P.state plant.old) (P.state plant.new) result }
        ensures labels { P.tells → IfSome self.new.site (λ site. AreLabelsRead (P.state plant.old) (P.state plant.new) self.new.names.labels) }
        ensures stands { P.tells → (began : P) (run : ScriptRun) → IsRunOver S.left run self.new traces.old traces.new (P.state began) (P.state plant.new) → AreCountsFrom (P.state began) (P.state plant.old)
            → OnOk result (StandsStartedAt run self.new traces.new (P.state plant.new)) }
    {
        let beginning = Beginning {
            session: self.session,
            level,
            controls: self.controls,
            at: line.time,
        };
        let site = self.kept.start(rt, alloc, beginning, traces, plant)?;
        self.place = SessionPlace::Started(site);
        Ok(())
    }

    /// Answers a line before the start, by a table of the session's own. A start that isn't refused is done.
    fn answer_before_start<R: Threads + Wait + Sync, S: Source + Send, P: Plant<Volume = V>>(
        &mut self,
        rt: &R,
        alloc: Global,
        plant: &mut P,
        traces: &mut [Lane<S>],
        line: &Line,
    ) -> Result<LineAnswer, Stop>
        requires between { IsBetween P.tells self.old traces.old (P.state plant.old) }
        requires unstarted { self.old.site ≡ None }
        requires time { 1 ≤ line.now.time.0 }
        ensures done { IfOk result (IsDoneLine P.tells self.old self.new line.now traces.new (P.state plant.new)) }
        ensures works { IsWorkOfStart P.tells (P.state plant.old) (P.state plant.new) result }
        ensures went { AllWent S.left S.faults traces.old traces.new }
        ensures lanes { OnOk result (AreSameLanes traces.old traces.new) }
        ensures hits { OnOk result (SuspendsByCounts self.old.table.rows self.new.table.rows (P.state plant.old) (P.state plant.new)) }
        ensures begins { P.tells → BeginsByLine self.old.session line.now (P.state plant.old) (P.state plant.new) }
        ensures means { P.tells → OnOk result (IfSome (level_started self.old.session line.now) (λ level. StandsAfterStart self.old.session level line.now.time.0 (P.state plant.old) (P.state plant.new))) }
        ensures starts { IfOk result (λ answered. IfSome (level_started self.old.session line.now) (λ level. IsStartAnswered self.new.site line.now.time.0 answered)) }
        ensures same { IsSameSession self.old self.new }
        ensures labels { P.tells → IfSome self.new.site (λ site. AreLabelsRead (P.state plant.old) (P.state plant.new) self.new.names.labels) }
        ensures does { P.tells → (began : P) → DoesLine S.left line.now self.old self.new traces.old traces.new (P.state began) (P.state plant.old) (P.state plant.new) result }
    {
        // A line's time has 64 bits.
        prove!(line.time.0 <= u64::MAX);
        let SessionPlace::Unstarted(table) = &mut self.place else {
            unreachable!()
        };
        let names = &self.kept.names;
        let done = table.command(alloc, names, line.session, &line.command, line.time);
        let answer = answer_of(done)?;
        let Some(level) = started_level(&answer, line.command) else {
            return Ok(LineAnswer::plain(answer));
        };
        self.start(rt, alloc, plant, traces, level, line)?;
        Ok(LineAnswer::plain(answer))
    }

    /// Answers a line once the session has ended, at the time of its end. It calls no device.
    #[tactic(none)]
    fn answer_after_end<R: Threads + Sync, S: Source, P: Plant<Volume = V>>(
        &mut self,
        rt: &R,
        alloc: Global,
        plant: &mut P,
        traces: &[Lane<S>],
        line: &Line,
    ) -> Result<LineAnswer, Stop>
        requires between { IsBetween P.tells self.old traces.now (P.state plant.old) }
        requires started { IsSome self.old.site }
        requires time { (1 ≤ line.now.time.0) × (session_time self.old ≤ line.now.time.0) }
        requires ended { self.old.is_ended ≡ true }
        ensures done { IfOk result (IsDoneLine P.tells self.old self.new line.now traces.now (P.state plant.new)) }
        ensures untouched { (plant.new ≡ plant.old) × IfErr result (λ stop. stop ≡ stops.NoMemory) }
        ensures keeps { KeepsPlant P.tells (P.state plant.old) (P.state plant.new) }
        ensures silent { P.tells → Silent (P.state plant.old) (P.state plant.new) }
        ensures hits { OnOk result (SuspendsByCounts self.old.table.rows self.new.table.rows (P.state plant.old) (P.state plant.new)) }
        ensures cause { IfErr result (HasStopCause (P.state plant.old) (P.state plant.new)) }
        ensures counts { StopsByCount (P.state plant.old) (P.state plant.new) result }
        ensures same { IsSameSession self.old self.new }
        ensures does { P.tells → (began : P) → DoesLine S.left line.now self.old self.new traces.now traces.now (P.state began) (P.state plant.old) (P.state plant.new) result }
    {
        // A line's time has 64 bits.
        prove!(line.time.0 <= u64::MAX);
        let SessionPlace::Started(site) = &mut self.place else {
            unreachable!()
        };
        self.kept.answer(rt, alloc, site, plant, line)
    }

    /// Brings the session to the time of a line, also for one that is refused, and answers it.
    #[tactic(none)]
    fn answer_in_time<R: Threads + Wait + Sync, S: Source + Send, P: Plant<Volume = V>>(
        &mut self,
        rt: &R,
        alloc: Global,
        plant: &mut P,
        traces: &mut [Lane<S>],
        line: &Line,
    ) -> Result<LineAnswer, Stop>
        requires between { IsBetween P.tells self.old traces.old (P.state plant.old) }
        requires started { IsSome self.old.site }
        requires time { (1 ≤ line.now.time.0) × (session_time self.old ≤ line.now.time.0) }
        requires goes_on { self.old.is_ended ≡ false }
        ensures done { IfOk result (IsDoneLine P.tells self.old self.new line.now traces.new (P.state plant.new)) }
        ensures keeps { KeepsPlant P.tells (P.state plant.old) (P.state plant.new) }
        ensures silent { P.tells → Silent (P.state plant.old) (P.state plant.new) }
        ensures went { AllWent S.left S.faults traces.old traces.new }
        ensures lanes { OnOk result (AreSameLanes traces.old traces.new) }
        ensures hits { OnOk result (SuspendsByCounts self.old.table.rows self.new.table.rows (P.state plant.old) (P.state plant.new)) }
        ensures cause { IfErr result (HasStopCause (P.state plant.old) (P.state plant.new)) }
        ensures counts { StopsByCount (P.state plant.old) (P.state plant.new) result }
        ensures same { IsSameSession self.old self.new }
        ensures does { P.tells → (began : P) → DoesLine S.left line.now self.old self.new traces.old traces.new (P.state began) (P.state plant.old) (P.state plant.new) result }
    {
        // A line's time has 64 bits.
        prove!(line.time.0 <= u64::MAX);
        let SessionPlace::Started(site) = &mut self.place else {
            unreachable!()
        };
        self.kept
            .bring_to(rt, alloc, line.time, traces, site, plant)?;
        let answered = self.kept.answer(rt, alloc, site, plant, line)?;
        self.ended = answered.is_end();
        Ok(answered)
    }

    /// Answers a line from the start on.
    #[tactic(none)]
    fn answer_from_start<R: Threads + Wait + Sync, S: Source + Send, P: Plant<Volume = V>>(
        &mut self,
        rt: &R,
        alloc: Global,
        plant: &mut P,
        traces: &mut [Lane<S>],
        line: &Line,
    ) -> Result<LineAnswer, Stop>
        requires between { IsBetween P.tells self.old traces.old (P.state plant.old) }
        requires started { IsSome self.old.site }
        requires time { (1 ≤ line.now.time.0) × (session_time self.old ≤ line.now.time.0) }
        ensures done { IfOk result (IsDoneLine P.tells self.old self.new line.now traces.new (P.state plant.new)) }
        ensures after_end { self.old.is_ended ≡ true → (plant.new ≡ plant.old) × IfErr result (λ stop. stop ≡ stops.NoMemory) }
        ensures keeps { KeepsPlant P.tells (P.state plant.old) (P.state plant.new) }
        ensures silent { P.tells → Silent (P.state plant.old) (P.state plant.new) }
        ensures went { AllWent S.left S.faults traces.old traces.new }
        ensures lanes { OnOk result (AreSameLanes traces.old traces.new) }
        ensures hits { OnOk result (SuspendsByCounts self.old.table.rows self.new.table.rows (P.state plant.old) (P.state plant.new)) }
        ensures cause { IfErr result (HasStopCause (P.state plant.old) (P.state plant.new)) }
        ensures counts { StopsByCount (P.state plant.old) (P.state plant.new) result }
        ensures same { IsSameSession self.old self.new }
        ensures does { P.tells → (began : P) → DoesLine S.left line.now self.old self.new traces.old traces.new (P.state began) (P.state plant.old) (P.state plant.new) result }
    {
        if self.ended {
            self.answer_after_end(rt, alloc, plant, traces, line)
        } else {
            self.answer_in_time(rt, alloc, plant, traces, line)
        }
    }

    /// Answers a line, but for saying its reply.
    #[tactic(none)]
    fn answer_line<R: Threads + Wait + Sync, S: Source + Send, P: Plant<Volume = V>>(
        &mut self,
        rt: &R,
        alloc: Global,
        plant: &mut P,
        traces: &mut [Lane<S>],
        line: &Line,
    ) -> Result<LineAnswer, Stop>
        requires between { IsBetween P.tells self.old traces.old (P.state plant.old) }
        requires time { (1 ≤ line.now.time.0) × (session_time self.old ≤ line.now.time.0) }
        ensures done { IfOk result (IsDoneLine P.tells self.old self.new line.now traces.new (P.state plant.new)) }
        ensures after_end { self.old.is_ended ≡ true → (plant.new ≡ plant.old) × IfErr result (λ stop. stop ≡ stops.NoMemory) }
        ensures keeps { KeepsPlant P.tells (P.state plant.old) (P.state plant.new) }
        ensures silent { P.tells → Silent (P.state plant.old) (P.state plant.new) }
        ensures went { AllWent S.left S.faults traces.old traces.new }
        ensures lanes { OnOk result (AreSameLanes traces.old traces.new) }
        ensures hits { OnOk result (SuspendsByCounts self.old.table.rows self.new.table.rows (P.state plant.old) (P.state plant.new)) }
        ensures begins { P.tells → self.old.site ≡ None → BeginsByLine self.old.session line.now (P.state plant.old) (P.state plant.new) }
        ensures means { P.tells → self.old.site ≡ None → OnOk result (IfSome (level_started self.old.session line.now) (λ level. StandsAfterStart self.old.session level line.now.time.0 (P.state plant.old) (P.state plant.new))) }
        ensures starts { self.old.site ≡ None → IfOk result (λ answered. IfSome (level_started self.old.session line.now) (λ level. IsStartAnswered self.new.site line.now.time.0 answered)) }
        ensures same { IsSameSession self.old self.new }
        ensures labels { P.tells → self.old.site ≡ None → IfSome self.new.site (λ site. AreLabelsRead (P.state plant.old) (P.state plant.new) self.new.names.labels) }
        ensures cause { IfErr result (HasStopCause (P.state plant.old) (P.state plant.new)) }
        ensures counts { StopsByCount (P.state plant.old) (P.state plant.new) result }
        ensures does { P.tells → (began : P) → DoesLine S.left line.now self.old self.new traces.old traces.new (P.state began) (P.state plant.old) (P.state plant.new) result }
    {
        match &self.place {
            SessionPlace::Unstarted(_) => self.answer_before_start(rt, alloc, plant, traces, line),
            SessionPlace::Started(_) => self.answer_from_start(rt, alloc, plant, traces, line),
        }
    }

    /// Brings the session to the time of a line, does its command or refuses it, logs what it changes, and says its reply: the report
    /// that it asks for, and then one line. The line's time is not below that of the line before.
    ///
    /// `ConsoleFault` comes only where the console failed in saying the reply. `JournalFault`, `ControlFault` and `StateFault` come
    /// only where that device failed, and `Spent` exactly where a record or a mark would need the number 2^64 - 1. A volume or a
    /// trace that fails stops nothing: it suspends pairs. After a stop the session may not be used again.
    #[tactic(none)]
    pub fn line<R: Threads + Wait + Sync, S: Source + Send, P: Plant<Volume = V>>(
        &mut self,
        rt: &R,
        alloc: Global,
        plant: &mut P,
        traces: &mut [Lane<S>],
        line: &Line,
    ) -> Result<(), Stop>
        requires between { IsBetween P.tells self.old traces.old (P.state plant.old) }
        requires time { (1 ≤ line.now.time.0) × (session_time self.old ≤ line.now.time.0) }
        ensures between { OnOk result (IsBetween P.tells self.new traces.new (P.state plant.new)) }
        ensures same { IsSameSession self.old self.new }
        ensures time { OnOk result (session_time self.new ≤ line.now.time.0) }
        ensures start { OnOk result (KeepsStart self.old self.new × StartsByLine line.now self.old self.new) }
        ensures labels { P.tells → self.old.site ≡ None → IfSome self.new.site (λ site. AreLabelsRead (P.state plant.old) (P.state plant.new) self.new.names.labels) }
        ensures keeps { KeepsPlant P.tells (P.state plant.old) (P.state plant.new) }
        ensures went { AllWent S.left S.faults traces.old traces.new }
        ensures lanes { OnOk result (AreSameLanes traces.old traces.new) }
        ensures hits { OnOk result (SuspendsByCounts self.old.table.rows self.new.table.rows (P.state plant.old) (P.state plant.new)) }
        // In each run, since whenever it began: the line is answered exactly after those before it, or the session stops in it.
        ensures answers { P.tells → (began : P) → AnswersLine S.left line.now self.old self.new traces.old traces.new (P.state began) (P.state plant.old) (P.state plant.new) result }
        ensures begins { P.tells → self.old.site ≡ None → BeginsByLine self.old.session line.now (P.state plant.old) (P.state plant.new) }
        ensures replies { P.tells → self.old.site ≡ None → OnOk result (RepliesToStart self.old.session line.now (P.state plant.old) (P.state plant.new)) }
        ensures unheard { P.tells → HearsNothing (P.state plant.old) (P.state plant.new) }
        // Why it stops.
        ensures cause { IfErr result (HasStopCause (P.state plant.old) (P.state plant.new)) }
        ensures counts { StopsByCount (P.state plant.old) (P.state plant.new) result }
    {
        let answered = self.answer_line(rt, alloc, plant, traces, line)?;
        self.reply
            .compose(alloc, &self.place, traces, line, &answered)?;
        match say_text(plant, self.reply.as_bytes()) {
            Ok(()) => Ok(()),
            Err(_) => Err(Stop::ConsoleFault),
        }
    }

    /// Ends the run of the session's script: all that was logged is applied and marked, if the session was started and hasn't
    /// ended. The session stays one that hasn't ended. Its stops are those of `line` but for `ConsoleFault`.
    #[tactic(none)]
    pub fn finish<R: Threads + Wait + Sync, P: Plant<Volume = V>>(
        self,
        rt: &R,
        _alloc: Global,
        plant: &mut P,
    ) -> Result<(), Stop>
        requires may { MayFinish P.tells self (P.state plant.old) }
        ensures after_end { self.is_ended ≡ true → (plant.new ≡ plant.old) × IsOk result }
        ensures keeps { KeepsPlant P.tells (P.state plant.old) (P.state plant.new) }
        // In each run after its lines, at the script's end: all is applied and marked, or it stops meanwhile.
        ensures ends { P.tells → (began : P) → FinishesRuns self (P.state began) (P.state plant.old) (P.state plant.new) result }
        ensures begins { P.tells → self.site ≡ None → plant.new ≡ plant.old }
        ensures silent { P.tells → Silent (P.state plant.old) (P.state plant.new) }
        // Why it stops.
        ensures cause { IfErr result (HasStopCause (P.state plant.old) (P.state plant.new)) }
        ensures unsaid { result ≡ Err stops.ConsoleFault → ⊥ }
        ensures counts { StopsByCount (P.state plant.old) (P.state plant.new) result }
    {
        let SessionRun { place, ended, .. } = self;
        let SessionPlace::Started(mut site) = place else {
            return Ok(());
        };
        if ended {
            return Ok(());
        }
        mark(rt, &mut site, plant, false)
    }
}
