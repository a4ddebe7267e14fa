//! What a crash leaves is recovered and compared with the rules.

use crate::calling::{Done, SiteCommand, command};
use crate::contents::{Labels, have_labels, have_tracks};
use crate::input::Level;
use crate::plan::{Afterwards, Plan};
use crate::recovered::{Moment, Recovered, read_recovered};
use crate::replies::level_word;
use crate::report::Report;
use crate::site::{Past, Rest};
use crate::world::World;
use crash_plant::{Device, Fail};
use std::alloc::Global;
use std::fmt::Write;
use std::sync::Wait;
use std::thread::Threads;
use xrc_edge::NoMemory;

/// The status of a recovery where no session has begun.
const NO_SESSION: u8 = 10;

/// A crash that is looked at.
#[derive(Drop)]
pub struct Crash<'m> {
    pub alloc: Global,
    pub moment: Moment<'m>,
    pub plan: &'m Plan,
    /// The devices as the crash left them.
    pub image: Past,
    /// The labels of the volumes there.
    pub labels: Vec<Vec<u8>>,
    /// Whether the run had done all, so that volumes hold it before a recovery.
    pub is_done: bool,
}

/// What a first recovery has said.
#[derive(Drop)]
struct First {
    status: u8,
    said: String,
    recovered: Recovered,
}

impl Crash<'_> {
    /// A copy of the devices.
    fn copy(&self) -> Result<Rest, NoMemory> {
        self.image.crash(self.alloc, b"")
    }

    fn world(&self) -> &World {
        self.moment.world
    }

    /// Recovers the devices, and compares.
    pub fn check<R: Threads + Wait + Sync>(
        &self,
        rt: &R,
        report: &mut Report,
    ) -> Result<(), NoMemory> {
        let Some(started) = self.recover(rt, report)? else {
            return Ok(());
        };
        let (first, site) = started;
        let site = self.site_afterwards(rt, &first, site, report)?;
        let again = command(rt, self.alloc, SiteCommand::Recover, site, &[])?;
        self.check_again(&first, &again, report)
    }

    /// Recovers a first time; None where what it says is wrong.
    fn recover<R: Threads + Wait + Sync>(
        &self,
        rt: &R,
        report: &mut Report,
    ) -> Result<Option<(First, Rest)>, NoMemory> {
        let done = command(rt, self.alloc, SiteCommand::Recover, self.copy()?, &[])?;
        let Some(first) = self.first(&done, report)? else {
            return Ok(None);
        };
        self.check_done(&first, report)?;
        let mut site = self.after(&done)?;
        self.check_left(&first, &mut site, Labels::Primary, report)?;
        Ok(Some((first, site)))
    }

    /// Compares the volumes that a run left which had done all.
    fn check_done(&self, first: &First, report: &mut Report) -> Result<(), NoMemory> {
        if !self.is_done || first.status != 0 {
            return Ok(());
        }
        let mut site = self.copy()?;
        self.check_tracks(first, &mut site, "a run's end lacks a write", report)
    }

    /// What a crash leaves after a command.
    fn after(&self, done: &Done) -> Result<Rest, NoMemory> {
        done.past.crash(self.alloc, self.plan.fill.as_slice())
    }

    /// Compares what a first recovery says with what the rules allow; None where it can't go on.
    fn first(&self, done: &Done, report: &mut Report) -> Result<Option<First>, NoMemory> {
        let alloc = self.alloc;
        let said = done.said();
        let mut recovered = Recovered {
            time: 0,
            pairs: Vec::new(alloc),
        };
        match done.status {
            0 => {
                let Some(read) = read_recovered(alloc, said)? else {
                    report.differ("a recovery says another text", said)?;
                    return Ok(None);
                };
                if !self.moment.allows(alloc, &read)? {
                    report.differ(
                        "a recovery's time or pairs are none that the rules allow",
                        said,
                    )?;
                    return Ok(None);
                }
                recovered = read;
            }
            NO_SESSION if self.moment.session.level.is_none() => {}
            _ => {
                report.differ("a recovery ends with another status", said)?;
                return Ok(None);
            }
        }
        Ok(Some(First {
            status: done.status,
            said: String::from_str(alloc, said)?,
            recovered,
        }))
    }

    /// Compares the volumes after a command.
    fn check_left(
        &self,
        first: &First,
        site: &mut Rest,
        labels: Labels,
        report: &mut Report,
    ) -> Result<(), NoMemory> {
        if first.status != 0 {
            return Ok(());
        }
        let (world, recovered) = (self.world(), &first.recovered);
        let before = self.labels.as_slice();
        if !have_labels(self.alloc, world, recovered, labels, before, site)? {
            report.differ("a label is another one", first.said.as_str())?;
        }
        self.check_tracks(
            first,
            site,
            "a pair lacks a write, or has one too many",
            report,
        )
    }

    fn check_tracks(
        &self,
        first: &First,
        site: &mut Rest,
        what: &str,
        report: &mut Report,
    ) -> Result<(), NoMemory> {
        if have_tracks(self.alloc, self.world(), &first.recovered, site)? {
            return Ok(());
        }
        report.differ(what, first.said.as_str())
    }

    /// Does what the plan wants after the first recovery, and gives the devices that it leaves.
    fn site_afterwards<R: Threads + Wait + Sync>(
        &self,
        rt: &R,
        first: &First,
        recovered: Rest,
        report: &mut Report,
    ) -> Result<Rest, NoMemory> {
        match self.plan.afterwards {
            Afterwards::RecoverAgain => Ok(recovered),
            Afterwards::AdvanceFirst => {
                let wanted = advanced_text(self.alloc, first)?;
                let done = self.compare(rt, SiteCommand::Advance, first, wanted, report)?;
                let mut site = self.after(&done)?;
                self.check_left(first, &mut site, Labels::Kept, report)?;
                Ok(site)
            }
            Afterwards::QueryFirst => {
                let wanted = self.query_text(first)?;
                let done = self.compare(rt, SiteCommand::Query, first, wanted, report)?;
                self.after(&done)
            }
            Afterwards::Interrupted(fail) => {
                let site = self.copy()?;
                let done = command(rt, self.alloc, SiteCommand::Recover, site, &[fail])?;
                self.check_interrupted(first, fail, &done, report)?;
                self.after(&done)
            }
        }
    }

    /// Makes a command on the devices and compares what it says.
    fn compare<R: Threads + Wait + Sync>(
        &self,
        rt: &R,
        what: SiteCommand,
        first: &First,
        wanted: String,
        report: &mut Report,
    ) -> Result<Done, NoMemory> {
        let done = command(rt, self.alloc, what, self.copy()?, &[])?;
        if done.status != first.status || done.said() != wanted.as_str() {
            report.differ(
                "an advance or a query differs from the recovery",
                done.said(),
            )?;
        }
        Ok(done)
    }

    fn query_text(&self, first: &First) -> Result<String, NoMemory> {
        let mut text = String::new(self.alloc);
        let Some((_, pairs)) = first.said.as_str().split_once('\n') else {
            return Ok(text);
        };
        if first.status != 0 {
            text.push_str(first.said.as_str())?;
            return Ok(text);
        }
        let level = level_word(self.level());
        let (time, count) = (first.recovered.time, first.recovered.pairs.len());
        writeln!(
            text,
            "SESSION SIM LEVEL {level} JOURNALED {time:016X} PAIRS {count}"
        )?;
        text.push_str(pairs)?;
        Ok(text)
    }

    /// The level of the session, or of the start that comes next.
    fn level(&self) -> Level {
        self.moment
            .session
            .level
            .or(self.moment.next_level())
            .unwrap_or(Level::Volume)
    }

    /// A recovery in which a call fails ends with a status that has this cause.
    fn check_interrupted(
        &self,
        first: &First,
        fail: Fail,
        done: &Done,
        report: &mut Report,
    ) -> Result<(), NoMemory> {
        let has_cause = match done.status {
            status if status == first.status => true,
            3 => fail.at.is_none() || fail.stop,
            5 => matches!(fail.at, Some(Device::Journal(_))) || fail.stop,
            6 => fail.at == Some(Device::Control) || fail.stop,
            7 => fail.at == Some(Device::State) || fail.stop,
            13 => matches!(fail.at, Some(Device::Volume(_))),
            _ => false,
        };
        if has_cause {
            return Ok(());
        }
        report.differ("a recovery's status has no cause", done.said())
    }

    /// A later recovery says and leaves what the first one does.
    fn check_again(
        &self,
        first: &First,
        again: &Done,
        report: &mut Report,
    ) -> Result<(), NoMemory> {
        if again.status != first.status || again.said() != first.said.as_str() {
            return report.differ("a second recovery says another text", again.said());
        }
        let mut site = self.after(again)?;
        self.check_left(first, &mut site, Labels::Primary, report)
    }
}

/// What an advance says where a recovery says this.
fn advanced_text(alloc: Global, first: &First) -> Result<String, NoMemory> {
    let mut text = String::new(alloc);
    match first.said.as_str().strip_prefix("RECOVERED") {
        Some(rest) => {
            text.push_str("ADVANCED")?;
            text.push_str(rest)?;
        }
        None => text.push_str(first.said.as_str())?,
    }
    Ok(text)
}
