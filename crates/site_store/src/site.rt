//! A site, and what it tells.

ghost use Rattle.std.specs.Prelude.{◌≡◌, false};
ghost use Rattle.site_store.specs.Sites.{is_mark_due};

use applier::SyncPace;
use control_set::Mark;
use pair_table::{Level, PairTable};
use std::marker::Model;
use tod_stamp::Stamp;
use xrc_journal::{Body, Journal, VolumeJob};

/// How many groups are logged between two marks.
const GROUPS_OF_MARK: u32 = 1;

/// What is kept of a session's devices between calls: the pairs, the mark that counts, the end of the journal, and a job for
/// each volume. `V` is a volume as the plant lends it.
#[derive(Drop)]
pub struct Site<V> {
    pub(crate) controls: u16,
    pub(crate) level: Level,
    pub(crate) table: PairTable,
    /// The rows that the devices tell, while the table is ahead of them.
    pub(crate) told: PairTable,
    /// Whether a change of the table waits to be logged.
    pub(crate) ahead: bool,
    /// The time of the last record, else of the mark.
    pub(crate) time: Stamp,
    pub(crate) mark: Mark,
    pub(crate) journal: Journal,
    /// How often a group was logged since the mark.
    pub(crate) since: u32,
    /// The last record.
    pub(crate) body: Body,
    /// Whether its items wait to be applied.
    pub(crate) waits: bool,
    /// Of each volume, whether items wait for it.
    pub(crate) due: Vec<bool>,
    /// The job of each volume, in order of their numbers.
    pub(crate) jobs: Vec<VolumeJob<V>>,
    /// Of each volume, whether it was written since the mark.
    pub(crate) written: Vec<bool>,
    /// Whether syncs are quick, as the last marks found.
    pub(crate) pace: SyncPace,
}

impl<V> Model for Site<V> {
    ghost use Rattle.std.specs.Prelude.{map, cond, []};
    ghost use Rattle.site_store.specs.Sites.{SiteState};
    ghost use Rattle.site_store.specs.Jobs.{AreJobsSound, has_job_failed};

    ghost Value = { SiteState };

    ghost view = { λ site. record {
      controls = site.controls;
      level = site.level;
      table = site.table;
      is_ahead = site.ahead;
      told = cond site.ahead site.told.rows site.table.rows;
      time = site.time.0;
      mark = site.mark;
      at = site.journal.at;
      since = site.since;
      waiting = cond site.waits site.body.items [];
      failed = map has_job_failed site.jobs.items;
      written = site.written.items;
    } };

    ghost invariant = { λ site. AreJobsSound site.controls site.body.room site.mark.at site.journal.marked site.table.session site.told.session site.waits site.body.items site.due.items site.jobs.items };
}

impl<V> Site<V> {
    /// The pairs of the session. The devices tell their rows, unless a change waits to be logged.
    pub fn table(&self) -> &PairTable
        ensures table { result.now ≡ self.now.table }
        ensures told { self.now.is_ahead ≡ false → self.now.told ≡ self.now.table.rows }
    {
        &self.table
    }

    /// The level at which faults suspend pairs.
    pub fn level(&self) -> Level
        ensures { result ≡ self.now.level }
    {
        self.level
    }

    /// The time of the last record, else of the mark.
    pub fn time(&self) -> Stamp
        ensures { result.0 ≡ self.now.time }
    {
        self.time
    }

    /// How often a group was logged since the mark.
    pub fn since(&self) -> u32
        ensures { result ≡ self.now.since }
    {
        self.since
    }

    /// Whether a mark is due: as many groups were logged since the last one as may stand between two.
    pub fn is_mark_due(&self) -> bool
        ensures { result ≡ is_mark_due self.now }
    {
        self.since >= GROUPS_OF_MARK
    }
}
