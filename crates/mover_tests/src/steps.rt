//! Readers' calls and the mover's, one after another, from where a session rests.

ghost use Rattle.std.specs.Prelude.{◌≡◌, ◌≤◌, find, length, OnOk};
ghost use Rattle.std.specs.List.{All};
ghost use Rattle.crash_plant.specs.Calls.{NoneLent};
ghost use Rattle.std.specs.Option.{option_copied};
ghost use Rattle.image_former.specs.Entries.{is_row_of};
ghost use Rattle.site_store.specs.IdleSites.{IsSiteIdle, IsSiteLogged};
ghost use Rattle.site_store.specs.Logging.{IsOfSomeRow};
ghost use Rattle.mover_tests.specs.Courses.{AreAtLimit, MayGoTo};
ghost use Rattle.mover_tests.specs.Steps.{HaveControlsReported, AreToJoin};

use crate::commands::assert_whole;
use crate::courses::Course;
use ckd_track::{Batch, Slot, Write, WriteList};
use crash_plant::Plant;
use group_state::{CopyJoin, Forming, GroupState, RunJoin};
use pair_table::{PairRow, PairTable};
use pending_queue::{EntryHead, Formed};
use site_store::{Site, StoreError};
use std::alloc::Global;
use std::process::Abort;
use std::thread::Threads;
use tod_stamp::Stamp;

/// What readers and mover share, with the time up to which each controller has reported, and the last cut.
#[derive(Drop)]
pub(crate) struct Shared {
    told: Vec<u64>,
    last: u64,
    group: GroupState,
}

/// No write, or the one that is given. It keeps the rules, is on a track of a cylinder, and comes after the one time and up to the other.
fn writes_of(rt: &impl Abort, alloc: Global, write: Option<Write>, times: (u64, u64)) -> WriteList
    ensures { AreToJoin times.0 times.1 result }
{
    let mut writes = WriteList::make(alloc);
    if let Some(write) = write {
        assert!(rt; write.kind.keeps_rules() && write.track < 15);
        assert!(rt; times.0 < write.stamp.0 && write.stamp.0 <= times.1);
        writes.push(alloc, write).expect(rt, "memory");
    }
    writes
}

impl Shared {
    /// The reader of a controller joins a batch with one write, or with none, up to a time.
    pub(crate) fn join(
        &mut self,
        rt: &impl Abort,
        alloc: Global,
        control: u16,
        write: Option<Write>,
        upto: u64,
    )
        requires { HaveControlsReported self.old.told.items self.old.last self.old.group }
        ensures told { HaveControlsReported self.new.told.items self.new.last self.new.group }
        ensures same { length self.new.group.controls ≡ length self.old.group.controls }
    {
        let place = usize::from(control);
        assert!(rt; place < self.told.len());
        let before = self.told[place];
        assert!(rt; before <= upto);
        let writes = writes_of(rt, alloc, write, (before, upto));
        let batch = Batch {
            control,
            writes,
            upto: Stamp(upto),
        };
        let joined = self.group.join_ref(&batch);
        assert_eq!(rt; joined, RunJoin::Joined);
        self.told[place] = upto;
    }

    /// The reader of a controller has no further write up to a time.
    pub(crate) fn raise(&mut self, rt: &impl Abort, control: u16, upto: u64)
        requires { HaveControlsReported self.old.told.items self.old.last self.old.group }
        ensures told { HaveControlsReported self.new.told.items self.new.last self.new.group }
        ensures same { length self.new.group.controls ≡ length self.old.group.controls }
    {
        let place = usize::from(control);
        assert!(rt; place < self.told.len() && self.told[place] <= upto);
        self.group.raise(control, Stamp(upto));
        self.told[place] = upto;
    }

    /// The reader of a controller joins the track that it wants next, with what is in the slot. Says whether one was wanted.
    fn copy_next(&mut self, rt: &impl Abort, control: u16, slot: &Slot) -> bool
        requires { HaveControlsReported self.old.told.items self.old.last self.old.group }
        ensures told { HaveControlsReported self.new.told.items self.new.last self.new.group }
        ensures same { length self.new.group.controls ≡ length self.old.group.controls }
    {
        let place = usize::from(control);
        assert!(rt; place < self.told.len());
        let Some((volume, track)) = self.group.next_wanted(control) else {
            return false;
        };
        assert!(rt; track < 15);
        let before = self.told[place];
        let joined = self
            .group
            .copied(control, volume, track, Stamp(before), slot);
        assert_eq!(rt; joined, CopyJoin::Joined);
        true
    }

    /// The reader of a controller joins the tracks that it wants next, all of them empty, up to so many. Tells how many there were.
    pub(crate) fn copy(&mut self, rt: &impl Abort, alloc: Global, control: u16, most: u32) -> u32
        requires { HaveControlsReported self.old.told.items self.old.last self.old.group }
        ensures told { HaveControlsReported self.new.told.items self.new.last self.new.group }
        ensures same { length self.new.group.controls ≡ length self.old.group.controls }
    {
        let slot = Slot::make(alloc).expect(rt, "memory");
        for copied in 0..most {
            if !self.copy_next(rt, control, &slot) {
                return copied;
            }
        }
        most
    }

    /// The mover forms a group up to a limit.
    fn form(&mut self, rt: &impl Abort, alloc: Global, limit: u64) -> Formed
        requires { HaveControlsReported self.old.told.items self.old.last self.old.group }
        ensures told { HaveControlsReported self.new.told.items self.new.last self.new.group }
        ensures same { length self.new.group.controls ≡ length self.old.group.controls }
        ensures controls { result.controls ≡ length self.old.group.controls }
    {
        assert!(rt; self.last <= limit);
        let mut formed = Formed::make(alloc, self.group.controls()).expect(rt, "memory");
        let forming = self.group.form(Stamp(limit), &mut formed);
        assert_eq!(rt; forming, Forming::Formed);
        self.last = formed.cut().0;
        formed
    }
}

/// What goes on by steps from where a session rests: what readers and mover share, and the site.
pub(crate) fn stepping<S: Drop, P: Plant>(
    rt: &impl Abort,
    alloc: Global,
    course: Course<S, P::Volume>,
    plant: &P,
    at: Stamp,
) -> (Shared, Site<P::Volume>)
    requires there { AreAtLimit at.0 course.lanes.items course.group course.site }
    requires may { MayGoTo P.tells at.0 course.names course.lanes.items course.group course.site (P.state plant.now) }
    ensures told { HaveControlsReported result.0.told.items result.0.last result.0.group }
    ensures few { length result.0.group.controls ≤ result.1.controls }
    ensures idle { IsSiteIdle P.tells result.1 (P.state plant.now) }
{
    let Course {
        names: _,
        lanes,
        group,
        site,
    } = course;
    assert!(rt; site.table().len() <= plant.volumes());
    assert_whole(rt, lanes.as_slice());
    let controls = usize::from(group.controls());
    let told = vec![in alloc; at.0; controls].expect(rt, "memory");
    let shared = Shared {
        told,
        last: at.0,
        group,
    };
    (shared, site)
}

/// The row of an entry.
fn row_of_entry(table: &PairTable, head: EntryHead) -> Option<&PairRow>
    ensures { option_copied result ≡ find (is_row_of head) table.now.rows }
{
    table.rows().iter().find(|row| row.control == head.control && row.volume == head.volume)
}

/// Each entry is of a row, on a track of its cylinders.
fn assert_rows(rt: &impl Abort, formed: &Formed, table: &PairTable)
    ensures { All (IsOfSomeRow table.now.rows) formed.now.entries }
{
    for place in 0..formed.count() {
        let head = formed.head(place);
        let row = row_of_entry(table, head).expect(rt, "a row");
        assert!(rt; u64::from(head.track) < u64::from(row.cylinders) * 15);
    }
}

/// The mover forms a group up to a limit, which has this cut and so many entries, and logs it.
pub(crate) fn log<P: Plant>(
    rt: &impl Abort,
    alloc: Global,
    shared: &mut Shared,
    site: &mut Site<P::Volume>,
    plant: &mut P,
    limit: u64,
    expected: (u64, u32),
) -> Result<(), StoreError>
    requires told { HaveControlsReported shared.old.told.items shared.old.last shared.old.group }
    requires few { length shared.old.group.controls ≤ site.old.controls }
    requires idle { IsSiteIdle P.tells site.old (P.state plant.old) }
    ensures home { NoneLent (P.state plant.new) }
    ensures told { HaveControlsReported shared.new.told.items shared.new.last shared.new.group }
    ensures few { OnOk result (length shared.new.group.controls ≤ site.new.controls) }
    ensures logged { OnOk result (IsSiteLogged P.tells site.new (P.state plant.new)) }
{
    let formed = shared.form(rt, alloc, limit);
    assert_eq!(rt; (formed.cut().0, formed.count()), expected);
    assert!(rt; site.time().0 <= formed.cut().0);
    assert_rows(rt, &formed, site.table());
    site.log(plant, &formed)
}

/// Applies the last group.
fn apply<R: Threads + Sync, P: Plant>(rt: &R, plant: &mut P, site: &mut Site<P::Volume>)
    requires logged { IsSiteLogged P.tells site.old (P.state plant.old) }
    ensures idle { IsSiteIdle P.tells site.new (P.state plant.new) }
    ensures same { site.new.controls ≡ site.old.controls }
{
    site.apply(rt, plant);
}

/// The mover logs such a group, and applies it.
pub(crate) fn log_applied<R: Threads + Sync + Abort, P: Plant>(
    rt: &R,
    alloc: Global,
    shared: &mut Shared,
    site: &mut Site<P::Volume>,
    plant: &mut P,
    limit: u64,
    expected: (u64, u32),
)
    requires told { HaveControlsReported shared.old.told.items shared.old.last shared.old.group }
    requires few { length shared.old.group.controls ≤ site.old.controls }
    requires idle { IsSiteIdle P.tells site.old (P.state plant.old) }
    ensures told { HaveControlsReported shared.new.told.items shared.new.last shared.new.group }
    ensures few { length shared.new.group.controls ≤ site.new.controls }
    ensures idle { IsSiteIdle P.tells site.new (P.state plant.new) }
{
    let logged = log(rt, alloc, shared, site, plant, limit, expected);
    logged.expect(rt, "a record");
    apply(rt, plant, site);
}
