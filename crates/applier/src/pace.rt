//! Whether syncs are quick, found without a clock.

ghost use Rattle.std.specs.Prelude.{◌≡◌, ◌<◌, ℕ, length, slice_index_or};
ghost use Rattle.applier.specs.Sides.{HoldsOfEach, SyncsJob};

use crate::cuts::{count_work, place_after};
use crate::sides::{sync_all, sync_each};
use crash_plant::Disk;
use std::sync::atomic::{AtomicBool, Ordering};
use std::thread::{Threads, join_mut};
use xrc_journal::VolumeJob;

/// How many calls go by what one look has told. A look costs the start of a thread.
const CALLS_OF_LOOK: u8 = 15;

/// What is known of the time that syncs take.
#[derive(Drop)]
pub struct SyncPace {
    // Whether the last sync that was looked at had ended before a thread began.
    is_quick: bool,
    // How many calls go by that before the next look.
    left: u8,
}

impl SyncPace {
    /// Nothing is known, so the first call looks.
    pub const fn new() -> SyncPace {
        SyncPace {
            is_quick: false,
            left: 0,
        }
    }
}

/// Syncs the volumes in this thread. Tells whether that had ended when a new thread looked; the flag is not set before.
fn sync_beside_look<R: Threads + Sync, D: Disk>(
    rt: &R,
    ended: &AtomicBool,
    jobs: &mut [VolumeJob<D>],
) -> bool
    ensures { HoldsOfEach (SyncsJob D.state D.tells) jobs.old jobs.new }
{
    let mut look = || ended.load(Ordering::SeqCst);
    let mut sync = ||
        ensures { HoldsOfEach (SyncsJob D.state D.tells) jobs.entry.now jobs.exit.now }
    {
        sync_each(jobs);
        ended.store(true, Ordering::SeqCst);
    };
    let (is_quick, ()) = join_mut(rt, &mut look, &mut sync);
    is_quick
}

/// Syncs the volumes in this thread. Tells whether that took less time than a thread to start.
fn sync_watched<R: Threads + Sync, D: Disk>(rt: &R, jobs: &mut [VolumeJob<D>]) -> bool
    ensures { HoldsOfEach (SyncsJob D.state D.tells) jobs.old jobs.new }
{
    sync_beside_look(rt, &AtomicBool::new(false), jobs)
}

/// Syncs the volumes as it is known to be quicker.
fn sync_by_pace<R: Threads + Sync, D: Disk + Send>(
    rt: &R,
    pace: &SyncPace,
    jobs: &mut [VolumeJob<D>],
)
    ensures { HoldsOfEach (SyncsJob D.state D.tells) jobs.old jobs.new }
{
    if pace.is_quick {
        sync_each(jobs);
    } else {
        sync_all(rt, jobs);
    }
}

/// Does what `sync_all` does, one volume after another where a sync takes less time than a thread to start, else side by side.
/// Each sixteenth call with several volumes to sync finds out which: it syncs the first of them while a new thread looks whether
/// that sync has ended. Where no thread can be started the look comes after the sync, and volumes are synced one after another.
pub fn sync_some<R: Threads + Sync, D: Disk + Send>(
    rt: &R,
    pace: &mut SyncPace,
    jobs: &mut [VolumeJob<D>],
)
    ensures same { length jobs.new ≡ length jobs.old }
    ensures each { (i : ℕ) (d : _) → i < length jobs.old → SyncsJob D.state D.tells (slice_index_or jobs.old i d) (slice_index_or jobs.new i d) }
{
    if count_work(jobs) < 2 {
        sync_each(jobs);
        return;
    }
    if pace.left > 0 {
        pace.left -= 1;
        sync_by_pace(rt, pace, jobs);
        return;
    }
    let (first, rest) = jobs.split_at_mut(place_after(jobs, 1));
    pace.is_quick = sync_watched(rt, first);
    pace.left = CALLS_OF_LOOK;
    sync_by_pace(rt, pace, rest);
}
