//! The calls of a site. Each first asserts what the call requires of its values.

ghost use Rattle.std.specs.Prelude.{◌≡◌, IfOk, OnOk, find};
ghost use Rattle.std.specs.List.{All};
ghost use Rattle.crash_plant.specs.Calls.{NoneLent};
ghost use Rattle.std.specs.Option.{option_copied};
ghost use Rattle.image_former.specs.Entries.{is_row_of};
ghost use Rattle.pair_table.specs.declared.command.Change.TheVariants.{Added as AddedPair};
ghost use Rattle.site_store.specs.Changing.{MayChange};
ghost use Rattle.site_store.specs.Logging.{IsOfSomeRow};
ghost use Rattle.site_store.specs.Standing.{HasLengths};
ghost use Rattle.site_store.specs.IdleSites.{IsSiteIdle, IsSiteLogged};

use crash_plant::{Device, Plant};
use pair_table::{Change, Level, PairRow, PairTable};
use pending_queue::{EntryHead, Formed};
use site_store::{Site, StoreError};
use std::alloc::Global;
use std::process::Abort;
use std::thread::Threads;
use tod_stamp::{Session, Stamp};

/// The length that a journal needs for one controller.
pub(crate) const JOURNAL_LENGTH: u64 = 1_826_816;

pub(crate) fn session(rt: &impl Abort) -> Session {
    Session::read(b"ABC").expect(rt, "a name")
}

/// The devices have the lengths and numbers that a site of one controller needs.
pub(crate) fn assert_lengths<P: Plant>(rt: &impl Abort, plant: &P)
    requires { NoneLent (P.state plant.now) }
    ensures { HasLengths 1 (P.state plant.now) }
{
    assert!(rt; plant.journals() == 2 && plant.volumes() <= 64);
    assert!(rt; plant.length(Device::Control) >= 1_024);
    assert!(rt; plant.length(Device::State) >= 16_384);
    assert!(rt; plant.length(Device::Journal(0)) >= JOURNAL_LENGTH);
    assert!(rt; plant.length(Device::Journal(1)) >= JOURNAL_LENGTH);
}

/// A site of one controller that has started at a time.
pub(crate) fn start_at<P: Plant>(
    rt: &impl Abort,
    alloc: Global,
    plant: &mut P,
    level: Level,
    at: Stamp,
) -> Result<Site<P::Volume>, StoreError>
    requires { NoneLent (P.state plant.old) }
    ensures home { NoneLent (P.state plant.new) }
    ensures idle { IfOk result (λ site. IsSiteIdle P.tells site (P.state plant.new)) }
{
    assert_lengths(rt, plant);
    assert!(rt; at.0 >= 1);
    Site::format(alloc, plant, session(rt), level, 1, at)
}

/// The row of an entry.
fn row_of_entry(table: &PairTable, head: EntryHead) -> Option<&PairRow>
    ensures { option_copied result ≡ find (is_row_of head) table.now.rows }
{
    table.rows().iter().find(|row| row.control == head.control && row.volume == head.volume)
}

/// Each entry is of a row, on a track of its cylinders.
fn assert_rows(rt: &impl Abort, formed: &Formed, table: &PairTable)
    ensures { All (IsOfSomeRow table.now.rows) formed.now.entries }
{
    for place in 0..formed.count() {
        let head = formed.head(place);
        let row = row_of_entry(table, head).expect(rt, "a row");
        assert!(rt; u64::from(head.track) < u64::from(row.cylinders) * 15);
    }
}

/// Logs a group.
pub(crate) fn log<P: Plant>(
    rt: &impl Abort,
    plant: &mut P,
    site: &mut Site<P::Volume>,
    formed: &Formed,
) -> Result<(), StoreError>
    requires { IsSiteIdle P.tells site.old (P.state plant.old) }
    ensures home { NoneLent (P.state plant.new) }
    ensures logged { OnOk result (IsSiteLogged P.tells site.new (P.state plant.new)) }
{
    assert!(rt; formed.controls() == 1 && site.time().0 <= formed.cut().0);
    assert_rows(rt, formed, site.table());
    site.log(plant, formed)
}

/// Applies the last group.
pub(crate) fn apply<R: Threads + Sync, P: Plant>(rt: &R, plant: &mut P, site: &mut Site<P::Volume>)
    requires { IsSiteLogged P.tells site.old (P.state plant.old) }
    ensures { IsSiteIdle P.tells site.new (P.state plant.new) }
{
    site.apply(rt, plant);
}

/// Tells the suspensions that failed jobs call for.
pub(crate) fn suspend<P: Plant>(
    rt: &impl Abort,
    plant: &mut P,
    site: &mut Site<P::Volume>,
    cut: Stamp,
) -> Result<(), StoreError>
    requires { IsSiteIdle P.tells site.old (P.state plant.old) }
    ensures home { NoneLent (P.state plant.new) }
    ensures idle { OnOk result (IsSiteIdle P.tells site.new (P.state plant.new)) }
{
    assert!(rt; site.time().0 <= cut.0);
    site.suspend(plant, cut)
}

/// Makes a mark.
#[tactic(auto, using(site_store::proofs::Between::may_mark))]
pub(crate) fn mark<R: Threads + Sync, P: Plant>(
    rt: &R,
    plant: &mut P,
    site: &mut Site<P::Volume>,
) -> Result<(), StoreError>
    requires { IsSiteIdle P.tells site.old (P.state plant.old) }
    ensures home { NoneLent (P.state plant.new) }
    ensures idle { OnOk result (IsSiteIdle P.tells site.new (P.state plant.new)) }
{
    site.mark(rt, plant, false)
}

/// Puts a row, whose change may be logged next.
fn put<P: Plant>(
    rt: &impl Abort,
    alloc: Global,
    plant: &P,
    site: &mut Site<P::Volume>,
    row: PairRow,
    cut: Stamp,
)
    requires { IsSiteIdle P.tells site.old (P.state plant.now) }
    ensures { MayChange P.tells cut.0 (AddedPair row.device) site.new (P.state plant.now) }
{
    assert!(rt; site.table().may_put(&row) && site.time().0 <= cut.0);
    assert!(rt; row.device < plant.volumes());
    let size = plant.length(Device::Volume(row.device));
    assert!(rt; 512 + u64::from(row.cylinders) * 860_160 <= size);
    site.put_row(alloc, row).expect(rt, "memory");
}

/// Puts a row, and logs it.
pub(crate) fn put_row<P: Plant>(
    rt: &impl Abort,
    alloc: Global,
    plant: &mut P,
    site: &mut Site<P::Volume>,
    row: PairRow,
    cut: Stamp,
) -> Result<(), StoreError>
    requires { IsSiteIdle P.tells site.old (P.state plant.old) }
    ensures home { NoneLent (P.state plant.new) }
    ensures idle { OnOk result (IsSiteIdle P.tells site.new (P.state plant.new)) }
{
    let device = row.device;
    put(rt, alloc, plant, site, row, cut);
    site.log_change(plant, cut, &Change::Added(device))
}

/// Logs a group and applies it.
#[tactic(auto, using(crate::proofs::Between::idle_home))]
pub(crate) fn log_applied<R: Threads + Sync + Abort, P: Plant>(
    rt: &R,
    plant: &mut P,
    site: &mut Site<P::Volume>,
    formed: &Formed,
) -> Result<(), StoreError>
    requires { IsSiteIdle P.tells site.old (P.state plant.old) }
    ensures home { NoneLent (P.state plant.new) }
    ensures idle { OnOk result (IsSiteIdle P.tells site.new (P.state plant.new)) }
{
    log(rt, plant, site, formed)?;
    apply(rt, plant, site);
    Ok(())
}

/// Logs, applies, tells suspensions and marks.
pub(crate) fn step<R: Threads + Sync + Abort, P: Plant>(
    rt: &R,
    plant: &mut P,
    site: &mut Site<P::Volume>,
    formed: &Formed,
) -> Result<(), StoreError>
    requires { IsSiteIdle P.tells site.old (P.state plant.old) }
    ensures home { NoneLent (P.state plant.new) }
    ensures idle { OnOk result (IsSiteIdle P.tells site.new (P.state plant.new)) }
{
    log_applied(rt, plant, site, formed)?;
    suspend(rt, plant, site, formed.cut())?;
    mark(rt, plant, site)
}
