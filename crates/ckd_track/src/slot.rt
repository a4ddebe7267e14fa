//! A slot: a buffer that is made once and begins with the image of a track.

ghost use Rattle.std.specs.Prelude.{◌≡◌, ◌≢◌, ◌≤◌, [], ◌∷◌, ◌++◌, length, take, drop, Ok, Err, IfOk, IfErr, OnErr, IsTrue};
ghost use Rattle.ckd_track.specs.Tracks.{IsTrack, are_records_above, rises_above};
ghost use Rattle.ckd_track.specs.Effects.{apply, updated, formatted, keeps_rules};
ghost use Rattle.ckd_track.specs.Entries.{IsFields, AppliesFields, IsQueueForm, AppliesEntry, IsDelta, AppliesDelta};
ghost use Rattle.ckd_track.specs.Images.{image, image_at, longest_image};
ghost use Rattle.ckd_track.specs.Slots.{IsImage, track_of_image, SpellsRecords, spelled_records};

use crate::changes::{format_image, format_image_spelled, update_image};
use crate::fault::ImageError;
use crate::layout::{BEFORE_IMAGE, SLOT_LENGTH};
use crate::reading::image_length;
use crate::rec::Rec;
use crate::spelling::put_image;
use crate::track::Track;
use crate::write::{Kind, Write};
use std::alloc::Global;
use std::boxed::BoxedSlice;
use std::marker::Model;
use xrc_edge::NoMemory;

/// A buffer that is made once and cannot grow. Contracts see it as the track whose image it begins with.
#[derive(Debug, Drop)]
pub struct Slot {
    buffer: BoxedSlice<u8>,
    used: usize,
}

impl Model for Slot {
    ghost use Rattle.std.specs.Prelude.{List, take};
    ghost use Rattle.ckd_track.specs.declared.rec.Rec.{Rec};
    ghost use Rattle.ckd_track.specs.Slots.{track_of_image, HoldsImage};

    ghost Value = { List Rec };

    ghost view = { λ slot. track_of_image (take slot.used slot.buffer.items.items) };

    ghost invariant = { λ slot. HoldsImage slot.used slot.buffer.items.items };
}

/// That many zeros.
fn zeros(alloc: Global, size: usize) -> Result<BoxedSlice<u8>, NoMemory>
    requires { 2 ≤ size }
    ensures sized { IfOk result (λ buffer. length buffer.items.items ≡ size) }
    ensures front { IfOk result (λ buffer. take 2 buffer.items.items ≡ 0 ∷ 0 ∷ []) }
{
    Ok(vec![in alloc; 0u8; size]?.into_boxed_slice())
}

/// Writes bytes over the front of a buffer.
fn put_front(buffer: &mut [u8], bytes: &[u8])
    requires { length bytes.now ≤ length buffer.old }
    ensures { buffer.new ≡ bytes.now ++ drop (length bytes.now) buffer.old }
{
    buffer[..bytes.len()].copy_from_slice(bytes);
}

impl Slot {
    /// A slot with no record, with a buffer of `SLOT_LENGTH` bytes. No other call of a slot takes an allocator.
    pub fn make(alloc: Global) -> Result<Slot, NoMemory>
        ensures { IfOk result (λ slot. slot ≡ []) }
    {
        let buffer = zeros(alloc, SLOT_LENGTH)?;
        Ok(Slot { buffer, used: 2 })
    }

    /// The image of the track.
    pub fn bytes(&self) -> &[u8]
        ensures image { result.now ≡ image self.now }
        ensures track { IsTrack self.now }
        ensures short { length result.now ≤ longest_image }
    {
        &self.buffer.as_slice()[..self.used]
    }

    /// Takes the track whose image the bytes are.
    fn put(&mut self, image: &[u8])
        requires { IsImage image.now }
        ensures { self.new ≡ track_of_image image.now }
    {
        put_front(self.buffer.as_mut_slice(), image);
        self.used = image.len();
    }

    /// Erases all records.
    fn clear(&mut self)
        ensures { self.new ≡ [] }
    {
        self.put(&[0, 0]);
    }

    /// Takes the track whose image the bytes begin with, and gives the image's length. If they begin with none, the slot
    /// becomes empty.
    pub fn load(&mut self, bytes: &[u8]) -> Result<usize, ImageError>
        ensures ok { IfOk result (λ count. image_at bytes.now ≡ Ok (self.new, drop count bytes.now)) }
        ensures length { IfOk result (λ count. count ≡ length (image self.new)) }
        ensures err { IfErr result (λ error. image_at bytes.now ≡ Err error) }
        ensures empty { OnErr result (self.new ≡ []) }
        ensures memory { result ≢ Err ImageError.NoMemory }
    {
        match image_length(bytes) {
            Ok(length) => {
                self.put(&bytes[..length]);
                Ok(length)
            }
            Err(error) => {
                self.clear();
                Err(error)
            }
        }
    }

    /// Takes a track.
    pub fn set(&mut self, track: &Track)
        ensures { self.new ≡ track.now }
    {
        self.used = put_image(self.buffer.as_mut_slice(), 0, track.recs());
    }

    /// Fills the content of the record with this number.
    fn update(&mut self, number: u8, bytes: &[u8])
        ensures { self.new ≡ updated number bytes.now self.old }
    {
        update_image(self.buffer.as_mut_slice(), self.used, number, bytes);
    }

    /// Puts the given records in the place of those above `after`.
    fn format(&mut self, after: u8, given: &[Rec])
        requires { IsTrue (are_records_above after given.now) }
        ensures { self.new ≡ formatted after given.now self.old }
    {
        self.used = format_image(self.buffer.as_mut_slice(), self.used, after, given);
    }

    /// The same for records that are spelled one after another, that many.
    fn format_spelled(&mut self, after: u8, count: u8, given: &[u8])
        requires spelled { SpellsRecords count given.now }
        requires above { IsTrue (rises_above after (spelled_records count given.now)) }
        ensures { self.new ≡ formatted after (spelled_records count given.now) self.old }
    {
        self.used = format_image_spelled(
            self.buffer.as_mut_slice(),
            self.used,
            after,
            count,
            given,
        );
    }

    /// Does what a write does to its track.
    pub fn apply(&mut self, write: &Write)
        requires { IsTrue (keeps_rules write.now.kind) }
        ensures { self.new ≡ apply self.old write.now.kind }
    {
        match &write.kind {
            Kind::Update { number, bytes } => self.update(*number, bytes.as_slice()),
            Kind::Format { after, recs } => self.format(*after, recs.as_slice()),
            Kind::Whole { track } => self.set(track),
        }
    }

    /// Does what a kind with this tag and these fields does to its track.
    fn apply_fields(&mut self, tag: u8, fields: &[u8])
        requires fields { IsFields tag fields.now }
        ensures { AppliesFields tag fields.now self.old self.new }
    {
        match tag {
            2 => {
                let (head, bytes) = fields.split_at(3);
                self.update(head[0], bytes);
            }
            3 => {
                let (head, given) = fields.split_at(2);
                self.format_spelled(head[0], head[1], given);
            }
            _ => self.put(fields),
        }
    }

    /// Does what the write does whose queue form the bytes are.
    pub fn apply_entry(&mut self, entry: &[u8])
        requires form { IsQueueForm entry.now }
        ensures { AppliesEntry entry.now self.old self.new }
    {
        let (head, fields) = entry.split_at(BEFORE_IMAGE);
        self.apply_fields(head[0], fields);
    }

    /// Does what an update or a format does, from its fields in a delta: a tag of 2 or 3, and the fields of the kind.
    pub fn apply_delta(&mut self, fields: &[u8])
        requires form { IsDelta fields.now }
        ensures { AppliesDelta fields.now self.old self.new }
    {
        let (head, rest) = fields.split_at(1);
        self.apply_fields(head[0], rest);
    }
}
