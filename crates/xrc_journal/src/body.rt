//! The body of a group.

ghost use Rattle.std.specs.Prelude.{◌≡◌, ◌≤◌, ◌+◌, ◌<◌, ◌^◌, ◌==◌, ◌∷◌, ◌++◌, [], length, false, Some, None, IfOk, OnErr, IsTrue, if◌then◌else◌, replicate};
ghost use Rattle.ckd_track.specs.Images.{image, longest_image};
ghost use Rattle.pair_table.specs.Rows.{keeps_row_rules};
ghost use Rattle.xrc_journal.specs.Items.{AreItems, anywhere, body_spelling, form_of};
ghost use Rattle.xrc_journal.specs.Items.Item.{Image, Pair, Gone};
ghost use Rattle.xrc_journal.specs.Bodies.{FitsInRoom, IsNextItem, PutsItem, Takes, are_late, have_image, with_item, without_items};
ghost use Rattle.xrc_edge.specs.Causes.{HasCause};
ghost use Rattle.crash_plant.specs.Moments.{on, Follows, Same};
ghost use Rattle.crash_plant.specs.Calls.{IsThere, NoneLent, WorksOn};
ghost use Rattle.xrc_journal.specs.Reading.{items_at};
ghost use Rattle.xrc_journal.specs.Records.{stretch};

use crate::buffer::{device_bytes, image_front, put_parts};
use crate::filling::fill;
use ckd_track::Slot;
use crash_plant::{Device, Plant};
use pair_table::{PairRow, encode_row};
use std::alloc::Global;
use std::boxed::BoxedSlice;
use std::marker::Model;
use xrc_edge::{Failed, NoMemory};

/// A buffer that is made once and cannot grow. Contracts see it as the items that it holds, in order, beside the most bytes
/// that these may have.
#[derive(Debug, Drop)]
pub struct Body {
    buffer: BoxedSlice<u8>,
    used: usize,
    // For the tracks that have an image among items that are read.
    alloc: Global,
}

impl Model for Body {
    ghost use Rattle.xrc_journal.specs.Bodies.{BodyState, HoldsItems, held_in};

    ghost Value = { BodyState };

    ghost view = { λ body. held_in body.used body.buffer.items.items };

    ghost invariant = { λ body. HoldsItems body.used body.buffer.items.items };
}

/// That many zeros.
fn zeros(alloc: Global, size: usize) -> Result<BoxedSlice<u8>, NoMemory>
    ensures { IfOk result (λ buffer. buffer.items.items ≡ replicate size 0) }
{
    Ok(vec![in alloc; 0u8; size]?.into_boxed_slice())
}

/// The place after the good bytes, where these aren't all.
fn bad_place(place: u64, good: usize, count: usize) -> Option<u64>
    requires { place + good < 2 ^ 64 }
    ensures { result ≡ if good == count then None else Some (place + good) }
{
    if good == count {
        None
    } else {
        Some(place + good as u64)
    }
}

impl Body {
    /// A body with no items, whose spelling may have that many bytes. No other call of a body takes an allocator.
    pub fn make(alloc: Global, length: u32) -> Result<Body, NoMemory>
        ensures { IfOk result (λ body. body ≡ record { items = []; room = length }) }
    {
        let buffer = zeros(alloc, length as usize + 1)?;
        Ok(Body {
            buffer,
            used: 0,
            alloc,
        })
    }

    /// The spelling of the items, one after another.
    pub fn bytes(&self) -> &[u8]
        ensures spelled { result.now ≡ body_spelling self.now.items }
        ensures keep { AreItems anywhere self.now.items }
        ensures short { length result.now ≤ self.now.room }
    {
        &self.buffer.as_slice()[..self.used]
    }

    /// The same with a closed gate after it.
    pub(crate) fn shut_bytes(&self) -> &[u8]
        ensures { result.now ≡ body_spelling self.now.items ++ 0 ∷ [] }
    {
        &self.buffer.as_slice()[..self.used + 1]
    }

    /// Takes out all items.
    pub fn clear(&mut self)
        ensures { self.new ≡ without_items self.old }
    {
        put_parts(self.buffer.as_mut_slice(), 0, &[], &[]);
        self.used = 0;
    }

    /// Puts an item, which is spelled in two parts, after the others.
    fn put(&mut self, front: &[u8], back: &[u8])
        requires next { IsNextItem self.old.items (front.now ++ back.now) }
        requires fits { length (body_spelling self.old.items) + length front.now + length back.now ≤ self.old.room }
        ensures put { PutsItem (front.now ++ back.now) self.old self.new }
        ensures keep { AreItems anywhere self.new.items }
    {
        put_parts(self.buffer.as_mut_slice(), self.used, front, back);
        self.used += front.len() + back.len();
    }

    /// Puts a track of a device. Images stand before rows, and a track has one at most.
    pub fn put_image(&mut self, device: u16, track: u32, slot: &Slot)
        requires fits { length (image slot.now) ≤ longest_image → FitsInRoom self.old (Image device track slot.now) }
        requires early { are_late self.old.items ≡ false }
        requires first { have_image self.old.items device track ≡ false }
        ensures put { self.new ≡ with_item (Image device track slot.now) self.old }
        ensures keep { AreItems anywhere self.new.items }
        // No track's image is longer.
        ensures short { length (image slot.now) ≤ longest_image }
    {
        self.put(&image_front(device, track), slot.bytes());
    }

    /// Puts a pair's row, in version 2.
    pub fn put_row(&mut self, row: &PairRow)
        requires fits { FitsInRoom self.old (Pair 2 row.now) }
        requires rules { IsTrue (keeps_row_rules row.now) }
        ensures { self.new ≡ with_item (Pair 2 row.now) self.old }
    {
        self.put(&[5], &encode_row(row));
    }

    /// Puts that a device's row goes.
    pub fn put_gone(&mut self, device: u16)
        requires fits { FitsInRoom self.old (Gone device) }
        ensures { self.new ≡ with_item (Gone device) self.old }
    {
        self.put(&[4], &device_bytes(device));
    }

    /// Takes the items that bytes of a device spell, up to the first that breaks its rules, and gives that one's place.
    pub(crate) fn fill<P: Plant>(
        &mut self,
        plant: &mut P,
        device: Device,
        place: u64,
        count: u32,
    ) -> Result<Option<u64>, Failed>
        requires there { IsThere (P.state plant.old) device }
        requires home { NoneLent (P.state plant.old) }
        requires range { place + count ≤ (P.state plant.old).lengths device }
        requires fits { place + count < 2 ^ 64 }
        requires room { count ≤ self.old.room }
        ensures items { P.tells → IfOk result (λ bad. Takes (items_at (form_of (P.state plant.old)) place (stretch place count ((P.state plant.old).bytes device))) bad self.old self.new) }
        ensures keep { AreItems (form_of (P.state plant.old)) self.new.items }
        ensures err { OnErr result (self.new ≡ without_items self.old) }
        ensures room { self.new.room ≡ self.old.room }
        ensures same { P.tells → (P.state plant.new).bytes device ≡ (P.state plant.old).bytes device }
        ensures moments { P.tells → Follows Same (on (P.state plant.old) device) (on (P.state plant.new) device) }
        ensures only { WorksOn P.tells (λ d. d ≡ device) (P.state plant.old) (P.state plant.new) }
        ensures cause { HasCause ((P.state plant.old).faults device) ((P.state plant.new).faults device) result }
    {
        let count = count as usize;
        match fill(
            plant,
            self.alloc,
            device,
            place,
            self.buffer.as_mut_slice(),
            count,
        ) {
            Ok(good) => {
                self.used = good;
                Ok(bad_place(place, good, count))
            }
            Err(Failed) => {
                self.used = 0;
                Err(Failed)
            }
        }
    }
}
