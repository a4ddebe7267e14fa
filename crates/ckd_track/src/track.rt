//! A track: its records in order.

ghost use Rattle.std.specs.Prelude.{◌≡◌, ◌≢◌, ◌+◌, ◌↔◌, [], ◌∷◌, ◌++◌, length, drop, Ok, Err, OnOk, OnErr, IfOk, IfErr, IsTrue};

use crate::decoding::decoded;
use crate::fault::ImageError;
use crate::layout::CAPACITY;
use crate::rec::{Rec, copied_records, refilled};
use crate::recs::{
    count_up_to, fitting_records, last_number, record_place, replace_after, track_size,
};
use crate::spelling::append_image;
use crate::write::{Kind, Write};
use std::alloc::Global;
use std::marker::Model;
use std::mem;
use xrc_edge::{Bytes, NoMemory};

/// A track. Contracts see it as the list of its records.
#[derive(Debug, Drop)]
pub struct Track {
    recs: Vec<Rec>,
    used: u32,
}

impl Model for Track {
    ghost use Rattle.std.specs.Prelude.{◌≡◌, List};
    ghost use Rattle.ckd_track.specs.declared.rec.Rec.{Rec};
    ghost use Rattle.ckd_track.specs.Tracks.{IsTrack, track_size};

    ghost Value = { List Rec };

    ghost view = { λ track. track.recs.items };

    ghost invariant = { λ track. IsTrack track.recs.items × (track.used ≡ track_size track.recs.items) };
}

impl Track {
    ghost use Rattle.ckd_track.specs.Tracks.{IsTrack, last_number, track_size, capacity, are_records_above};
    ghost use Rattle.ckd_track.specs.Effects.{apply, updated, formatted, keeps_rules};
    ghost use Rattle.ckd_track.specs.Images.{image, image_at};

    /// A track with no record. It takes no memory.
    pub fn make(alloc: Global) -> Track
        ensures { result ≡ [] }
    {
        Track {
            recs: Vec::new(alloc),
            used: 0,
        }
    }

    fn of_records(recs: Vec<Rec>) -> Track
        requires track { IsTrack recs.items }
        ensures { result ≡ recs.items }
    {
        let used = track_size(recs.as_slice()) as u32;
        Track { recs, used }
    }

    /// The records in order of their numbers.
    pub fn recs(&self) -> &[Rec]
        ensures recs { result.now ≡ self.now }
        ensures track { IsTrack self.now }
    {
        self.recs.as_slice()
    }

    /// The number of the last record, or 0.
    pub(crate) fn last(&self) -> u8
        ensures { result ≡ last_number 0 self.now }
    {
        last_number(self.recs.as_slice())
    }

    /// The bytes that are left for records.
    pub(crate) fn room(&self) -> usize
        ensures left { result + track_size self.now ≡ capacity }
        ensures track { IsTrack self.now }
    {
        CAPACITY - self.used as usize
    }

    /// Whether the record may stand after those of the track: its number is above theirs, its key has at most 255
    /// bytes, and there is room for it.
    pub fn fits(&self, rec: &Rec) -> bool
        ensures { IsTrue result ↔ IsTrack (self.now ++ rec.now ∷ []) }
    {
        if rec.number <= self.last() || rec.key.len() > 255 {
            return false;
        }
        let size = (8 + rec.key.len()).saturating_add(rec.content.len());
        size <= self.room()
    }

    /// Puts a record after those of the track.
    pub fn push(&mut self, _alloc: Global, rec: Rec) -> Result<(), NoMemory>
        requires { IsTrack (self.old ++ rec ∷ []) }
        ensures ok { OnOk result (self.new ≡ self.old ++ rec ∷ []) }
        ensures err { OnErr result (self.new ≡ self.old) }
    {
        let size = 8 + rec.key.len() + rec.content.len();
        self.recs.push(rec)?;
        self.used += size as u32;
        Ok(())
    }

    fn copied(&self, alloc: Global) -> Result<Track, NoMemory>
        ensures { IfOk result (λ copy. copy ≡ self.now) }
    {
        Ok(Track {
            recs: copied_records(alloc, self.recs.as_slice())?,
            used: self.used,
        })
    }

    /// Fills the content of the record with this number. It takes no memory.
    fn update(&mut self, alloc: Global, number: u8, bytes: &[u8])
        ensures { self.new ≡ updated number bytes.now self.old }
    {
        if let Some(place) = record_place(self.recs(), number) {
            let rec = &mut self.recs[place];
            let content = mem::replace(&mut rec.content, Bytes::make(alloc));
            rec.content = refilled(content, bytes);
        }
    }

    /// Puts the given records in the place of those above `after`.
    fn format(&mut self, alloc: Global, after: u8, given: &[Rec]) -> Result<(), NoMemory>
        requires { IsTrue (are_records_above after given.now) }
        ensures ok { OnOk result (self.new ≡ formatted after given.now self.old) }
        ensures err { OnErr result (self.new ≡ self.old) }
    {
        let kept = count_up_to(self.recs(), after);
        let front = &self.recs()[..kept];
        if last_number(front) != after {
            return Ok(());
        }
        let front_size = track_size(front);
        let taken = fitting_records(given, CAPACITY - front_size);
        let used = front_size + track_size(taken);
        replace_after(&mut self.recs, kept, copied_records(alloc, taken)?)?;
        self.used = used as u32;
        Ok(())
    }

    /// Does what a write does to its track.
    pub fn apply(&mut self, alloc: Global, write: &Write) -> Result<(), NoMemory>
        requires { IsTrue (keeps_rules write.now.kind) }
        ensures ok { OnOk result (self.new ≡ apply self.old write.now.kind) }
        ensures err { OnErr result (self.new ≡ self.old) }
    {
        match &write.kind {
            Kind::Update { number, bytes } => {
                self.update(alloc, *number, bytes.as_slice());
                Ok(())
            }
            Kind::Format { after, recs } => self.format(alloc, *after, recs.as_slice()),
            Kind::Whole { track } => {
                *self = track.copied(alloc)?;
                Ok(())
            }
        }
    }

    /// Puts the track's image after the bytes of `out`.
    pub fn encode_image(&self, alloc: Global, out: &mut Bytes) -> Result<(), NoMemory>
        ensures ok { OnOk result (out.new ≡ out.old ++ image self.now) }
        ensures err { OnErr result (out.new ≡ out.old) }
    {
        let before = out.len();
        let appended = append_image(alloc, out, self.recs());
        if appended.is_err() {
            out.truncate(before);
        }
        appended
    }

    /// The track whose image the bytes begin with, and the image's length.
    pub fn decode_image(alloc: Global, bytes: &[u8]) -> Result<(Track, usize), ImageError>
        ensures ok { IfOk result (λ read. image_at bytes.now ≡ Ok (read.0, drop read.1 bytes.now)) }
        ensures length { IfOk result (λ read. read.1 ≡ length (image read.0)) }
        ensures err { IfErr result (λ error. error ≢ ImageError.NoMemory → image_at bytes.now ≡ Err error) }
    {
        let (recs, rest) = decoded(alloc, bytes)?;
        Ok((Track::of_records(recs.into_vec()), bytes.len() - rest.len()))
    }
}
