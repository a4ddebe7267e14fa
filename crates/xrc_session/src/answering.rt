//! The command of a line, done and logged.

ghost use Rattle.std.specs.Option.{option_map};
ghost use Rattle.std.specs.Prelude.{◌≡◌, [], true, false, Ok, Err, IfErr, IfOk, IsSomeAnd, OnOk};
ghost use Rattle.xrc_session.specs.Taking.{IsSoundForRows, tracks_to_copy};
ghost use Rattle.record_rows.specs.Hits.{hit_now};
ghost use Rattle.site_store.specs.IdleSites.{IsSiteIdle};
ghost use Rattle.site_store.specs.Changing.{changed_items};
ghost use Rattle.site_store.specs.Records.{VolumesStay};
ghost use Rattle.xrc_session.specs.Answering.{group_taken, AnswersCommands, ControlsCount, IsMarkedSite, IsSiteAnswered, IsSiteAfter, IsSiteCommanded, LogsCommands, MarksOn, MayLogChange, answer_said, change_result, is_end_accepted};
ghost use Rattle.xrc_session.specs.LinePauses.{MayCommandSite};
ghost use Rattle.xrc_session.specs.Bringing.{IsWorkOfStore};
ghost use Rattle.xrc_status.specs.declared.stop.Stop.TheVariants as stops;

use crate::kept::SessionParts;
use crate::stops::stop_of_store;
use crate::take_change;
use crash_plant::Plant;
use pair_table::{Change, CommandError, MOST_ROWS, Refusal};
use site_store::Site;
use std::alloc::Global;
use std::thread::Threads;
use xrc_command::Line;
use xrc_status::Stop;

/// What became of a line's command, and how many tracks are to be copied by it.
#[derive(Drop)]
pub(crate) struct LineAnswer {
    pub(crate) answer: Result<Change, Refusal>,
    pub(crate) tracks: u32,
}

impl LineAnswer {
    /// An answer by which nothing is copied.
    pub(crate) fn plain(answer: Result<Change, Refusal>) -> LineAnswer
        ensures { (result.answer ≡ answer) × (result.tracks ≡ 0) }
    {
        LineAnswer { answer, tracks: 0 }
    }

    pub(crate) fn is_end(&self) -> bool
        ensures { result ≡ is_end_accepted self.now.answer }
    {
        matches!(self.answer, Ok(Change::Ended))
    }
}

/// The answer of a command that was done or refused, if there was memory for it.
pub(crate) fn answer_of(done: Result<Change, CommandError>) -> Result<Result<Change, Refusal>, Stop>
    ensures { result ≡ answer_said done }
{
    match done {
        Ok(change) => Ok(Ok(change)),
        Err(CommandError::Refused(why)) => Ok(Err(why)),
        Err(CommandError::NoMemory) => Err(Stop::NoMemory),
    }
}

/// Makes a mark, by which the session ends or goes on.
pub(crate) fn mark<R: Threads + Sync, P: Plant>(
    rt: &R,
    site: &mut Site<P::Volume>,
    plant: &mut P,
    ended: bool,
) -> Result<(), Stop>
    requires idle { IsSiteIdle P.tells site.old (P.state plant.old) }
    requires told { hit_now site.old.failed site.old.told ≡ [] }
    ensures site { OnOk result (IsMarkedSite P.tells ended site.old site.new (P.state plant.new)) }
    ensures volumes { VolumesStay P.tells (P.state plant.old) (P.state plant.new) }
    ensures unsaid { result ≡ Err stops.ConsoleFault → ⊥ }
    ensures works { IsWorkOfStore P.tells site.old site.new (P.state plant.old) (P.state plant.new) result }
    ensures marks { P.tells → (began : P) → MarksOn ended site.old site.new (P.state began) (P.state plant.old) (P.state plant.new) result }
{
    match site.mark(rt, plant, ended) {
        Ok(()) => Ok(()),
        Err(error) => Err(stop_of_store(error)),
    }
}

impl SessionParts {
    /// Logs the change that a line's command made, and takes it over into the shared state. Tells how many tracks are to be copied.
    fn log<P: Plant>(
        &mut self,
        alloc: Global,
        site: &mut Site<P::Volume>,
        plant: &mut P,
        line: &Line,
        change: &Change,
    ) -> Result<u32, Stop>
        requires may { MayLogChange P.tells self.old.names line.now change.now self.old.before.rows.items site.old (P.state plant.old) }
        requires kept { IsSomeAnd self.old.group (λ group. IsSoundForRows group self.old.before.rows.items) }
        requires live { IsSomeAnd self.old.group (ControlsCount self.old.names) }
        ensures site { OnOk result (IsSiteAfter P.tells self.old.names site.old site.new (P.state plant.new)) }
        ensures kept { OnOk result (IsSomeAnd self.new.group (λ group. IsSoundForRows group site.new.told)) }
        ensures quiet { OnOk result (changed_items change.now site.old.table.rows ≡ [] → site.new ≡ record site.old { is_ahead = false }) }
        ensures tracks { IfOk result (λ tracks. IsSomeAnd self.old.group (λ group. tracks ≡ tracks_to_copy change.now group self.old.before.rows.items site.new.told)) }
        ensures names { self.new.names ≡ self.old.names }
        ensures taken { OnOk result (self.new.group ≡ option_map (group_taken (Ok change.now) self.old.before.rows.items site.new.told) self.old.group) }
        ensures works { IsWorkOfStore P.tells site.old site.new (P.state plant.old) (P.state plant.new) result }
        ensures answers { P.tells → (began : P) → LogsCommands line.now change.now self.old self.new site.old site.new (P.state began) (P.state plant.old) (P.state plant.new) (change_result change.now result) }
    {
        match site.log_change(plant, line.time, change) {
            Ok(()) => {}
            Err(error) => return Err(stop_of_store(error)),
        }
        let Some(group) = &mut self.group else {
            unreachable!()
        };
        Ok(take_change(alloc, group, self.before.as_slice(), site.table(), change)?)
    }

    /// Does the command of a line on a site that was brought to the line's time, or refuses it, and logs what it changes.
    fn command<P: Plant>(
        &mut self,
        alloc: Global,
        site: &mut Site<P::Volume>,
        plant: &mut P,
        line: &Line,
    ) -> Result<LineAnswer, Stop>
        requires may { MayCommandSite P.tells self.old.names (P.state plant.old) site.old }
        requires at { site.old.table.is_ended ≡ false → site.old.time ≡ line.now.time.0 }
        requires kept { site.old.table.is_ended ≡ false → IsSomeAnd self.old.group (λ group. IsSoundForRows group site.old.told × ControlsCount self.old.names group) }
        requires flag { site.old.mark.ended ≡ site.old.table.is_ended }
        ensures site { IfOk result (λ answered. IsSiteCommanded P.tells self.old.names line.now answered.answer site.old site.new (P.state plant.new)) }
        ensures kept { OnOk result (site.new.table.is_ended ≡ false → IsSomeAnd self.new.group (λ group. IsSoundForRows group site.new.told)) }
        ensures names { self.new.names ≡ self.old.names }
        ensures taken { IfOk result (λ answered. self.new.group ≡ option_map (group_taken answered.answer site.old.told site.new.told) self.old.group) }
        ensures works { IsWorkOfStore P.tells site.old site.new (P.state plant.old) (P.state plant.new) result }
        ensures after_end { site.old.table.is_ended ≡ true → (plant.new ≡ plant.old) × IfErr result (λ stop. stop ≡ stops.NoMemory) }
        ensures answers { P.tells → (began : P) → AnswersCommands line.now self.old self.new site.old site.new (P.state began) (P.state plant.old) (P.state plant.new) result }
    {
        self.before.copy(site.table());
        let done = site.command(alloc, &self.names, line.session, &line.command, line.time);
        let answer = answer_of(done)?;
        // A command leaves the rows of a table.
        prove!(site.table().len() as usize <= MOST_ROWS);
        match answer {
            Ok(change) => {
                let tracks = self.log(alloc, site, plant, line, &change)?;
                Ok(LineAnswer {
                    answer: Ok(change),
                    tracks,
                })
            }
            Err(why) => Ok(LineAnswer::plain(Err(why))),
        }
    }

    /// Does the command of a line on a site that was brought to the line's time, or refuses it. What it changes is logged, and an end
    /// is marked.
    pub(crate) fn answer<R: Threads + Sync, P: Plant>(
        &mut self,
        rt: &R,
        alloc: Global,
        site: &mut Site<P::Volume>,
        plant: &mut P,
        line: &Line,
    ) -> Result<LineAnswer, Stop>
        requires may { MayCommandSite P.tells self.old.names (P.state plant.old) site.old }
        requires at { site.old.table.is_ended ≡ false → site.old.time ≡ line.now.time.0 }
        requires kept { site.old.table.is_ended ≡ false → IsSomeAnd self.old.group (λ group. IsSoundForRows group site.old.told × ControlsCount self.old.names group) }
        requires flag { site.old.mark.ended ≡ site.old.table.is_ended }
        ensures site { IfOk result (λ answered. IsSiteAnswered P.tells self.old.names line.now answered.answer site.old site.new (P.state plant.new)) }
        ensures kept { OnOk result (site.new.table.is_ended ≡ false → IsSomeAnd self.new.group (λ group. IsSoundForRows group site.new.told)) }
        ensures names { self.new.names ≡ self.old.names }
        ensures taken { IfOk result (λ answered. site.new.table.is_ended ≡ false → self.new.group ≡ option_map (group_taken answered.answer site.old.told site.new.told) self.old.group) }
        ensures works { IsWorkOfStore P.tells site.old site.new (P.state plant.old) (P.state plant.new) result }
        ensures after_end { site.old.table.is_ended ≡ true → (plant.new ≡ plant.old) × IfErr result (λ stop. stop ≡ stops.NoMemory) }
        ensures answers { P.tells → (began : P) → AnswersCommands line.now self.old self.new site.old site.new (P.state began) (P.state plant.old) (P.state plant.new) result }
    {
        let answered = self.command(alloc, site, plant, line)?;
        if !answered.is_end() {
            return Ok(answered);
        }
        mark(rt, site, plant, true)?;
        Ok(answered)
    }
}
