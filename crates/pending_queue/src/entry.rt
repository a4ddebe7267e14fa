//! Entries: what a write or a copied track gives to its entry.

ghost use Rattle.std.specs.Prelude.{◌≡◌, ◌≤◌, ◌+◌, ◌∷◌, [], ◌++◌, length, drop, IsTrue};
ghost use Rattle.std.specs.Int.{w16, w32, w64, to_be_bytes};
ghost use Rattle.ckd_track.specs.Entries.{longest_entry};
ghost use Rattle.ckd_track.specs.Images.{image};
ghost use Rattle.ckd_track.specs.Slots.{with_bytes};
ghost use Rattle.pending_queue.specs.Entries.{IsOfWrite, copy_of, is_copied, is_whole, entry_head};

use crate::head::EntryHead;
use byteorder::{BigEndian, ByteOrder};
use ckd_track::{BEFORE_IMAGE, Kind, Slot, Write};
use std::snapshot::Snapshot;

/// The tag of a whole track.
const WHOLE: u8 = 4;

/// What an entry does to its track, remembered for contracts alone.
#[derive(Drop)]
pub enum Effect {
    Write(Snapshot<Kind>),
    Copy(Snapshot<Slot>),
}

impl Effect {
    /// Whether a copied track replaces it.
    pub fn is_copy(&self) -> bool
        ensures { result ≡ is_copied self.now }
    {
        matches!(self, Effect::Copy(_))
    }
}

/// The head of a write of a controller.
pub fn head_of(control: u16, write: &Write) -> EntryHead
    ensures { result ≡ entry_head control write.now }
{
    EntryHead {
        control,
        volume: write.volume,
        track: write.track,
        stamp: write.stamp,
        whole: is_whole(&write.kind),
    }
}

fn is_whole(kind: &Kind) -> bool
    ensures { result ≡ is_whole kind.now }
{
    matches!(kind, Kind::Whole { .. })
}

/// The length of the queue form of a copied track.
pub fn copy_len(slot: &Slot) -> usize
    ensures image { result ≡ BEFORE_IMAGE + length (image slot.now) }
    ensures length { (head : EntryHead) → result ≡ length (copy_of head slot.now).form }
    ensures short { result ≤ longest_entry }
{
    BEFORE_IMAGE + slot.bytes().len()
}

/// Puts bytes at a place, over those there.
fn put_bytes(out: &mut [u8], place: usize, bytes: &[u8])
    requires { place + length bytes.now ≤ length out.old }
    ensures { out.new ≡ with_bytes place bytes.now out.old }
{
    out[place..place + bytes.len()].copy_from_slice(bytes);
}

/// The part of the queue form of a copied track before the image.
fn copy_front(head: EntryHead) -> [u8; BEFORE_IMAGE]
    ensures { result ≡ 4 ∷ [] ++ to_be_bytes w64 head.stamp.0 ++ to_be_bytes w16 head.volume ++ to_be_bytes w32 head.track }
{
    let mut front = [0; BEFORE_IMAGE];
    front[0] = WHOLE;
    BigEndian::write_u64(&mut front[1..], head.stamp.0);
    BigEndian::write_u16(&mut front[9..], head.volume);
    BigEndian::write_u32(&mut front[11..], head.track);
    front
}

/// Puts the queue form of a copied track at the front of `out`, leaves the rest, and gives the form's length.
pub fn put_copy(head: EntryHead, slot: &Slot, out: &mut [u8]) -> usize
    requires room { longest_entry ≤ length out.old }
    ensures form { out.new ≡ (copy_of head slot.now).form ++ drop (length (copy_of head slot.now).form) out.old }
    ensures length { result ≡ length (copy_of head slot.now).form }
    ensures short { result ≤ longest_entry }
    ensures write { IsTrue head.whole → IsOfWrite (copy_of head slot.now) }
{
    put_bytes(out, 0, &copy_front(head));
    put_bytes(out, BEFORE_IMAGE, slot.bytes());
    copy_len(slot)
}
