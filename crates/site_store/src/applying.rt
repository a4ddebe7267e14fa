//! The last group, applied to the volumes.

ghost use Rattle.std.specs.Prelude.{◌≡◌, ◌≤◌, ◌&&◌, not, ℕ, false, length, slice_index_or, IsTrue};
ghost use Rattle.applier.specs.Returns.{WorksOnLent};
ghost use Rattle.crash_plant.specs.Calls.{NoneLent, Silent};
ghost use Rattle.xrc_journal.specs.Items.{AreItems, form_of};
ghost use Rattle.site_store.specs.Applying.{Applies, AppliesToJobs, AreNoted, DoesApply, excepted_by_apply};
ghost use Rattle.site_store.specs.Jobs.{are_home_from, has_device};
ghost use Rattle.site_store.specs.Marking.{IsAmong};
ghost use Rattle.site_store.specs.Standing.{Leaves, StandsFast};
ghost use Rattle.site_store.specs.Waiting.{IsOfWaiting};

use crate::Site;
use crate::hits::either;
use applier::{apply_body, give_back_all, lend_all};
use crash_plant::Plant;
use std::thread::Threads;
use xrc_journal::{Body, VolumeJob};

/// Applies a body to the volumes for which it has items, side by side where it has many bytes: they are lent, written, and given
/// back in order of their numbers.
fn apply_jobs<R: Threads + Sync, P: Plant>(
    rt: &R,
    plant: &mut P,
    body: &Body,
    jobs: &mut [VolumeJob<P::Volume>],
    due: &[bool],
)
    requires home { NoneLent (P.state plant.old) }
    requires volumes { length jobs.old ≡ (P.state plant.old).volumes }
    requires flags { length due.now ≡ length jobs.old }
    requires jobs { IsTrue (are_home_from 0 jobs.old) }
    requires due { (d : ℕ) → slice_index_or due.now d false ≡ has_device d body.now.items }
    requires items { AreItems (form_of (P.state plant.old)) body.now.items }
    ensures jobs { IsTrue (are_home_from 0 jobs.new) }
    ensures applies { AppliesToJobs P.tells body.now.items due.now jobs.old jobs.new (P.state plant.old) (P.state plant.new) }
    ensures same { length jobs.new ≡ length jobs.old }
    ensures home { NoneLent (P.state plant.new) }
    ensures only { WorksOnLent P.tells (IsAmong due.now) (P.state plant.old) (P.state plant.new) }
{
    lend_all(plant, jobs, due);
    apply_body(rt, body, jobs);
    give_back_all(plant, jobs);
}

/// Whether items that are due are applied to a volume: its job hasn't failed.
fn is_applied(due: bool, failed: bool) -> bool
    ensures { result ≡ (not failed && due) }
{
    !failed && due
}

/// Notes the volumes to which items will be applied as written.
fn note_written<V>(written: &mut [bool], due: &[bool], jobs: &[VolumeJob<V>])
    requires due { length written.old ≤ length due.now }
    requires jobs { length written.old ≤ length jobs.now }
    ensures same { length written.new ≡ length written.old }
    ensures written { AreNoted due.now jobs.now written.old written.new }
{
    for place in 0..written.len() {
        written[place] = either(written[place], is_applied(due[place], jobs[place].failed));
    }
}

impl<V> Site<V> {
    /// Applies the last group, where its items wait, to each volume of which it has one and whose job hasn't failed. A job whose
    /// volume fails is marked failed, and `suspend` tells it. It takes no memory.
    pub fn apply<R: Threads + Sync, P: Plant<Volume = V>>(&mut self, rt: &R, plant: &mut P)
        requires fast { StandsFast P.tells self.old (P.state plant.old) }
        ensures ok { Applies P.tells self.old self.new (P.state plant.old) (P.state plant.new) }
        ensures leaves { Leaves P.tells (excepted_by_apply self.old) self.old self.new (P.state plant.old) (P.state plant.new) }
        ensures moments { P.tells → DoesApply self.old (P.state plant.old) (P.state plant.new) }
        ensures others { WorksOnLent P.tells (IsOfWaiting self.old) (P.state plant.old) (P.state plant.new) }
        ensures heard_said { P.tells → Silent (P.state plant.old) (P.state plant.new) }
    {
        if !self.waits {
            return;
        }
        note_written(&mut self.written, &self.due, &self.jobs);
        apply_jobs(rt, plant, &self.body, &mut self.jobs, &self.due);
        self.due.fill(false);
        self.waits = false;
    }
}
