ghost use Rattle.std.specs.Prelude.{◌≡◌, ◌≤◌, ℕ, filter, All, IfOk, OnOk, IsTrue};
ghost use Rattle.write_trace.specs.Headers.{is_track_of, is_header};
ghost use Rattle.ckd_track.specs.declared.write.Write.{Write};
ghost use Rattle.write_trace.specs.Writes.{IsWriteTo};
ghost use Rattle.primary_ctl.specs.States.{PrimaryState, track_of, base_in, after_writes, is_on};

use crate::held::Held;
use ckd_track::{Batch, Slot, Track};
use std::alloc::Global;
use std::marker::Model;
use tod_stamp::Stamp;
use write_trace::{Header, VolumeList};
use xrc_edge::NoMemory;

/// The primary volumes of a controller at a time. Contracts see the volumes, the time, and what each track holds.
#[derive(Drop)]
pub struct Primary {
    volumes: VolumeList,
    held: Held,
    empty: Track,
    time: Stamp,
}

impl Model for Primary {
    ghost use Rattle.std.specs.Prelude.{◌≡◌, []};
    ghost use Rattle.primary_ctl.specs.States.{PrimaryState};

    ghost Value = { PrimaryState };

    ghost view = { λ p. record { volumes = p.volumes; held = p.held; time = p.time.0 } };

    ghost invariant = { λ p. p.empty ≡ [] };
}

impl Primary {
    /// The volumes before the first entry of their trace, at time 0.
    pub fn make(alloc: Global, header: Header) -> Result<Primary, NoMemory>
        requires { IsTrue (is_header header) }
        ensures volumes { IfOk result (λ primary. primary.volumes ≡ header.volumes) }
        ensures tracks { IfOk result (λ primary. (volume track : ℕ) → track_of primary volume track ≡ base_in header.base volume track) }
        ensures time { IfOk result (λ primary. primary.time ≡ 0) }
    {
        let Header {
            version: _,
            volumes,
            base,
        } = header;
        let mut held = Held::make(alloc);
        for (volume, track, content) in base.into_vec() {
            held.put(volume, track, content)?;
        }
        Ok(Primary {
            volumes,
            held,
            empty: Track::make(alloc),
            time: Stamp(0),
        })
    }

    /// Does what the writes of a batch do to their tracks, in order, and takes over the batch's time. After an error nothing
    /// may be asked of it any more.
    pub fn step(&mut self, alloc: Global, batch: &Batch) -> Result<(), NoMemory>
        requires writes { All (IsWriteTo self.old.volumes) batch.now.writes }
        requires later { self.old.time ≤ batch.now.upto.0 }
        ensures volumes { OnOk result (self.new.volumes ≡ self.old.volumes) }
        ensures tracks { OnOk result ((volume track : ℕ) → track_of self.new volume track ≡ after_writes (track_of self.old volume track) (filter (is_on volume track) batch.now.writes)) }
        ensures time { OnOk result (self.new.time ≡ batch.now.upto.0) }
    {
        for write in batch.writes.as_slice() {
            self.held.apply(alloc, write)?;
        }
        self.time = batch.upto;
        Ok(())
    }

    /// Takes over a time at which the tracks are still the same.
    pub fn pass(&mut self, upto: Stamp)
        requires { self.old.time ≤ upto.0 }
        ensures { self.new ≡ record self.old { time = upto.0 } }
    {
        self.time = upto;
    }

    /// Sets `out` to a track, and gives the time.
    pub fn read_track(&self, volume: u16, track: u32, out: &mut Slot) -> Stamp
        requires { IsTrue (is_track_of self.now.volumes volume track) }
        ensures track { out.new ≡ track_of self.now volume track }
        ensures time { result.0 ≡ self.now.time }
    {
        match self.held.get(volume, track) {
            Some(content) => out.set(content),
            None => out.set(&self.empty),
        }
        self.time
    }
}
