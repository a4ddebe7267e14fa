//! What the rules say of the traces: which entries are good, when a controller breaks, and what its volumes hold at a time.

use crate::input::{Controller, End, Input};
use crate::spelling::{Spelled, SpelledScript, spell_script, spell_trace};
use crate::track::{Record, apply};
use std::alloc::Global;
use xrc_edge::NoMemory;

/// The most writes of one stamp.
const MOST_WRITES: u32 = 32;

/// Why a controller has broken.
#[derive(Clone, Copy, Debug, PartialEq, Eq)]
pub enum Cause {
    ReadFault,
    BadTrace { place: usize },
    Crowded { stamp: u64 },
}

#[derive(Clone, Copy, Debug, PartialEq, Eq)]
pub struct Break {
    /// The last time for which the controller vouches.
    pub time: u64,
    pub cause: Cause,
}

/// What the rules say of a trace.
#[derive(Clone, Copy)]
pub struct Facts {
    /// How many of its entries are good.
    pub good: usize,
    pub broken: Option<Break>,
}

/// The tracks of a volume.
pub type Tracks = Vec<Vec<Record>>;

/// An input with its bytes, and what the rules say of it.
#[derive(Drop)]
pub struct World {
    pub input: Input,
    pub traces: Vec<Spelled>,
    pub facts: Vec<Facts>,
    pub script: SpelledScript,
}

impl World {
    pub fn new(alloc: Global, input: Input) -> Result<World, NoMemory> {
        let mut traces = Vec::new(alloc);
        let mut facts = Vec::new(alloc);
        for controller in input.controllers.iter() {
            let trace = spell_trace(alloc, controller)?;
            facts.push(facts_of(controller, &trace))?;
            traces.push(trace)?;
        }
        let script = spell_script(alloc, &input)?;
        Ok(World {
            input,
            traces,
            facts,
            script,
        })
    }

    pub fn break_of(&self, control: usize) -> Option<Break> {
        self.facts.get(control)?.broken
    }

    /// Whether a controller has broken before a time.
    pub fn has_broken(&self, control: usize, time: u64) -> bool {
        self.break_of(control).is_some_and(|it| it.time < time)
    }

    /// How many tracks of a primary have a good write after one time and up to another.
    pub fn changed(
        &self,
        alloc: Global,
        primary: u16,
        since: u64,
        upto: u64,
    ) -> Result<u64, NoMemory> {
        let mut tracks: Vec<u16> = Vec::new(alloc);
        let Some((control, controller)) = self.input.controller_of(primary) else {
            return Ok(0);
        };
        for entry in controller.entries.iter().take(self.good(control)) {
            let is_between = since < entry.stamp && entry.stamp <= upto;
            if let Some(write) = &entry.write {
                let is_new = !tracks.as_slice().contains(&write.track);
                if is_between && is_new && write.primary == primary {
                    tracks.push(write.track)?;
                }
            }
        }
        Ok(tracks.len() as u64)
    }

    fn good(&self, control: usize) -> usize {
        self.facts.get(control).map_or(0, |facts| facts.good)
    }

    /// The tracks of a primary after exactly its good writes up to a time.
    pub fn tracks_at(&self, alloc: Global, primary: u16, time: u64) -> Result<Tracks, NoMemory> {
        let mut tracks = self.first_tracks(alloc, primary)?;
        let Some((control, controller)) = self.input.controller_of(primary) else {
            return Ok(tracks);
        };
        for entry in controller.entries.iter().take(self.good(control)) {
            let Some(write) = &entry.write else {
                continue;
            };
            if entry.stamp > time || write.primary != primary {
                continue;
            }
            if let Some(track) = tracks.get_mut(usize::from(write.track)) {
                apply(track, &write.effect)?;
            }
        }
        Ok(tracks)
    }

    /// The tracks of a primary before all writes.
    fn first_tracks(&self, alloc: Global, primary: u16) -> Result<Tracks, NoMemory> {
        let mut tracks = Vec::new(alloc);
        let Some(primary) = self.input.primary(primary) else {
            return Ok(tracks);
        };
        for _ in 0..primary.tracks() {
            tracks.push(Vec::new(alloc))?;
        }
        for base in primary.bases.iter() {
            if let Some(track) = tracks.get_mut(usize::from(base.track)) {
                track.extend_from_slice(base.records.as_slice())?;
            }
        }
        Ok(tracks)
    }
}

fn facts_of(controller: &Controller, trace: &Spelled) -> Facts {
    let ends = trace.ends.iter().skip(1);
    let good = ends.filter(|end| **end <= trace.given).count();
    Facts {
        good,
        broken: break_of(controller, trace, good),
    }
}

/// When a controller breaks: before the first run with too many writes, else before its last run if its trace does not end
/// cleanly.
fn break_of(controller: &Controller, trace: &Spelled, good: usize) -> Option<Break> {
    let cause = match controller.end {
        End::Clean => None,
        End::Fault { .. } => Some(Cause::ReadFault),
        End::BadTag | End::Falling | End::Cut { .. } => Some(Cause::BadTrace {
            place: trace.ends.get(good).copied().unwrap_or(0),
        }),
    };
    let mut stamp = 0u64;
    let mut writes = 0u32;
    for entry in controller.entries.iter().take(good) {
        if entry.stamp != stamp {
            writes = 0;
        }
        stamp = entry.stamp;
        if entry.write.is_some() {
            writes = writes.saturating_add(1);
        }
        if writes > MOST_WRITES {
            return Some(Break {
                time: stamp.saturating_sub(1),
                cause: Cause::Crowded { stamp },
            });
        }
    }
    let time = stamp.saturating_sub(1);
    cause.map(|cause| Break { time, cause })
}
