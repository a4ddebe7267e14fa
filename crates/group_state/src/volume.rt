//! A volume of a controller.

ghost use Rattle.std.specs.Prelude.{◌≡◌, ◌<◌, length, nat_lt, IsTrue};
ghost use Rattle.std.specs.List.{list_all};
ghost use Rattle.change_map.specs.Sets.{size};
ghost use Rattle.pending_queue.specs.Entries.{without_volume, entry_tracks};
ghost use Rattle.pending_queue.specs.Queues.{with_waiting};
ghost use Rattle.group_state.specs.Volumes.{wants, carries, next_in, noted_write, dropped_map, dropped_volume, resumed_volume, is_done_after};

use change_map::ChangeMap;
use copy_plan::CopyPlan;
use pending_queue::Queue;
use tod_stamp::Stamp;

/// A volume that is carried, or that was dropped and isn't forgotten: the plan of its copy, and the map of the tracks that are
/// written while it is dropped.
#[derive(Debug, Drop)]
pub struct Volume {
    pub number: u16,
    pub carried: bool,
    pub plan: CopyPlan,
    pub map: ChangeMap,
}

impl Volume {
    /// Whether a write on the track is carried.
    pub fn carries(&self, track: u32) -> bool
        ensures { result ≡ carries track self.now }
    {
        self.carried && !self.plan.wants(track)
    }

    /// Whether a copy still has to read the track.
    pub fn wants(&self, track: u32) -> bool
        ensures { result ≡ wants track self.now }
    {
        self.carried && self.plan.wants(track)
    }

    /// The least track that a copy still has to read.
    pub fn next_wanted(&self) -> Option<u32>
        ensures { result ≡ next_in self.now }
    {
        if !self.carried {
            return None;
        }
        self.plan.next()
    }

    /// A write on the track goes into the map of a dropped volume.
    pub fn note_write(&mut self, track: u32)
        requires within { track < length self.old.map }
        ensures { self.new ≡ noted_write track self.old }
    {
        if !self.carried {
            self.map.set(track);
        }
    }

    /// The volume is dropped, and its entries are taken out of the queue.
    pub fn drop_from(&mut self, queue: &mut Queue, all: bool)
        requires tracks { IsTrue (list_all (λ x. nat_lt x (length self.old.map)) (entry_tracks self.old.number queue.old.state.waiting)) }
        ensures queue { queue.new.state ≡ with_waiting queue.old.state (without_volume self.old.number queue.old.state.waiting) }
        ensures volume { self.new ≡ dropped_volume all (entry_tracks self.old.number queue.old.state.waiting) self.old }
    {
        take_out(queue, self.number, &mut self.map, all);
        self.carried = false;
    }

    /// The tracks of the map are wanted again. Tells how many.
    pub fn resume(&mut self) -> u32
        requires sizes { length self.old.map ≡ length self.old.plan.wanted }
        ensures owed { result ≡ size self.old.map }
        ensures volume { self.new ≡ resumed_volume self.old }
    {
        let owed = self.map.count();
        self.plan.refill(&mut self.map);
        self.carried = true;
        owed
    }

    /// Whether all of the plan is formed once a form with this cut has taken what is due in the queue.
    pub fn is_done_after(&self, queue: &Queue, cut: Stamp) -> bool
        ensures { result ≡ is_done_after cut queue.now.state.waiting self.now }
    {
        self.carried && self.plan.wanted() == 0 && !queue.has_copies_left(self.number, cut)
    }
}

/// Takes a volume's entries out of a queue. The map then holds their tracks, or all.
fn take_out(queue: &mut Queue, number: u16, map: &mut ChangeMap, all: bool)
    requires tracks { IsTrue (list_all (λ x. nat_lt x (length map.old)) (entry_tracks number queue.old.state.waiting)) }
    ensures queue { queue.new.state ≡ with_waiting queue.old.state (without_volume number queue.old.state.waiting) }
    ensures map { map.new ≡ dropped_map all (entry_tracks number queue.old.state.waiting) map.old }
{
    queue.drop_volume(number, map);
    if all {
        map.set_all();
    }
}
