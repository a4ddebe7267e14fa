//! Plans of what is copied.

ghost use Rattle.std.specs.Prelude.{◌≡◌, ℕ, ◌<◌, ◌≤◌, length, IfOk, IfSome, true, false};
ghost use Rattle.change_map.specs.Sets.{no_track, every_track, has_track, without_track, size, least_from};
ghost use Rattle.copy_plan.specs.Plans.{fresh_plan, with_joined, with_formed, is_complete};

use change_map::ChangeMap;
use std::alloc::Global;
use std::marker::Model;
use std::mem;
use xrc_edge::NoMemory;

/// The tracks of a volume that are wanted, and how many were joined to a queue and are not yet formed into a group.
#[derive(Debug, Drop)]
pub struct CopyPlan {
    wanted: ChangeMap,
    // How many tracks are wanted.
    left: u32,
    // No track below this one is wanted.
    from: u32,
    joined: u32,
}

impl Model for CopyPlan {
    ghost use Rattle.copy_plan.specs.Plans.{PlanState, IsPlanSound};

    ghost Value = { PlanState };

    ghost view = { λ plan. record { wanted = plan.wanted; joined = plan.joined } };

    ghost invariant = { λ plan. IsPlanSound plan.wanted plan.left plan.from plan.joined };
}

impl CopyPlan {
    /// The plan of a first copy: all of so many tracks are wanted.
    pub fn first(alloc: Global, tracks: u32) -> Result<CopyPlan, NoMemory>
        ensures { IfOk result (λ plan. plan ≡ fresh_plan (every_track tracks)) }
    {
        let mut map = ChangeMap::make(alloc, tracks)?;
        map.set_all();
        Ok(CopyPlan::owed(map))
    }

    /// The plan that wants exactly the tracks of a map.
    pub fn owed(map: ChangeMap) -> CopyPlan
        ensures { result ≡ fresh_plan map }
    {
        CopyPlan {
            left: map.count(),
            wanted: map,
            from: 0,
            joined: 0,
        }
    }

    /// How many tracks the volume has, wanted or not.
    pub fn tracks(&self) -> u32
        ensures { result ≡ length self.now.wanted }
    {
        self.wanted.tracks()
    }

    /// How many tracks are wanted.
    pub fn wanted(&self) -> u32
        ensures { result ≡ size self.now.wanted }
    {
        self.left
    }

    /// The least track that is wanted; None exactly where none is.
    pub fn next(&self) -> Option<u32>
        ensures least { result ≡ least_from self.now.wanted 0 }
        ensures wanted { IfSome result (λ x. has_track self.now.wanted x ≡ true) }
    {
        self.wanted.next_from(self.from)
    }

    /// Whether a track is wanted. None past the volume's end is.
    pub fn wants(&self, x: u32) -> bool
        ensures { result ≡ has_track self.now.wanted x }
    {
        x < self.wanted.tracks() && self.wanted.has(x)
    }

    /// A wanted track was joined.
    pub fn joined(&mut self, x: u32)
        requires { has_track self.old.wanted x ≡ true }
        ensures { self.new ≡ with_joined self.old x }
    {
        self.from = self.start_without(x);
        self.wanted.clear(x);
        self.left -= 1;
        self.joined += 1;
    }

    /// The track from which on the next one is looked for once this one is wanted no longer.
    fn start_without(&self, x: u32) -> u32
        requires { has_track self.now.wanted x ≡ true }
        ensures within { result ≤ length self.now.wanted }
        ensures none_before { (y : ℕ) → y < result → has_track (without_track self.now.wanted x) y ≡ false }
    {
        match self.next() {
            Some(next) if next == x => x + 1,
            _ => self.from,
        }
    }

    /// A joined track was formed.
    pub fn formed(&mut self, x: u32)
        requires unwanted { has_track self.old.wanted x ≡ false }
        requires some { 0 < self.old.joined }
        ensures { self.new ≡ with_formed self.old }
    {
        self.joined -= 1;
    }

    /// Whether nothing is wanted, and all that was joined is formed.
    pub fn done(&self) -> bool
        ensures { result ≡ is_complete self.now }
    {
        self.left == 0 && self.joined == 0
    }

    /// Begins again with exactly the tracks of a map, which is cleared.
    pub fn refill(&mut self, map: &mut ChangeMap)
        requires { length map.old ≡ length self.old.wanted }
        ensures refilled { self.new ≡ fresh_plan map.old }
        ensures cleared { map.new ≡ no_track (length map.old) }
    {
        mem::swap(&mut self.wanted, map);
        map.clear_all();
        self.left = self.wanted.count();
        self.from = 0;
        self.joined = 0;
    }
}
