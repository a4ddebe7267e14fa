//! What tracks hold.

ghost use Rattle.std.specs.Prelude.{◌≡◌, ℕ, [], OnOk, IsTrue, if◌then◌else◌};
ghost use Rattle.std.specs.Option.{option_copied};
ghost use Rattle.ckd_track.specs.Effects.{apply, keeps_rules};
ghost use Rattle.primary_ctl.specs.States.{is_place, found, track_in};

use ckd_track::{Track, Write};
use std::alloc::Global;
use std::collections::HashMap;
use std::marker::Model;
use xrc_edge::NoMemory;

/// The number of a volume, and that of a track there.
type TrackPlace = (u16, u32);

/// Tracks by their places. One that is not listed is empty.
#[derive(Drop)]
pub struct Held {
    tracks: HashMap<TrackPlace, Track>,
}

impl Model for Held {
    ghost use Rattle.std.specs.Prelude.{List};
    ghost use Rattle.primary_ctl.specs.States.{PlacedTrack};

    ghost Value = { List PlacedTrack };

    ghost view = { λ held. held.tracks.entries };
}

impl Held {
    /// No track. It takes no memory.
    pub fn make(alloc: Global) -> Held
        ensures { result ≡ [] }
    {
        Held {
            tracks: HashMap::new(alloc),
        }
    }

    /// The track that is listed at a place.
    pub fn get(&self, volume: u16, track: u32) -> Option<&Track>
        ensures { option_copied result ≡ found self.now volume track }
    {
        self.tracks.get(&(volume, track))
    }

    /// Lists a track at a place.
    pub fn put(&mut self, volume: u16, track: u32, content: Track) -> Result<(), NoMemory>
        ensures { OnOk result ((v t : ℕ) → track_in self.new v t ≡ (if is_place volume track (v, t) then content else track_in self.old v t)) }
    {
        self.tracks.insert((volume, track), content)?;
        Ok(())
    }

    /// Does what a write does to its track.
    pub fn apply(&mut self, alloc: Global, write: &Write) -> Result<(), NoMemory>
        requires { IsTrue (keeps_rules write.now.kind) }
        ensures { OnOk result ((v t : ℕ) → track_in self.new v t ≡ (if is_place write.now.volume write.now.track (v, t) then apply (track_in self.old v t) write.now.kind else track_in self.old v t)) }
    {
        let place = (write.volume, write.track);
        if let Some(track) = self.tracks.get_mut(&place) {
            return track.apply(alloc, write);
        }
        let mut track = Track::make(alloc);
        track.apply(alloc, write)?;
        self.put(write.volume, write.track, track)
    }
}
