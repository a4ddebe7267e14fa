//! Entries of writes: how long they are, and the form in which they wait in a queue.

ghost use Rattle.std.specs.Prelude.{◌≡◌, ◌≤◌, ◌<◌, ◌^◌, ◌+◌, ◌∷◌, [], ◌++◌, length, take, drop, OnOk, OnErr, IsTrue};
ghost use Rattle.std.specs.Int.{w16, w32, w64, to_be_bytes};
ghost use Rattle.ckd_track.specs.Effects.{keeps_rules, is_kind};
ghost use Rattle.ckd_track.specs.Entries.{tag_of, kind_spelling, write_spelling, queue_form, longest_entry};
ghost use Rattle.ckd_track.specs.Images.{longest_image};
ghost use Rattle.ckd_track.specs.Slots.{with_bytes};

use crate::layout::BEFORE_IMAGE;
use crate::recs::spelled_length;
use crate::spelling::{append_image, append_records, put_bytes, put_image, put_records};
use crate::write::{Kind, Write};
use byteorder::{BigEndian, ByteOrder};
use std::alloc::Global;
use xrc_edge::{Bytes, NoMemory};

/// The length of the fields of a kind.
fn fields_len(kind: &Kind) -> usize
    requires { IsTrue (keeps_rules kind.now) }
    ensures length { result ≡ length (kind_spelling kind.now) }
    ensures short { result ≤ longest_image }
{
    match kind {
        Kind::Update { bytes, .. } => 3 + bytes.len(),
        Kind::Format { recs, .. } => 2 + spelled_length(recs.as_slice()),
        Kind::Whole { track } => 2 + spelled_length(track.recs()),
    }
}

/// The length of the write's queue form, which is also that of its entry in a trace of version 1, where its cylinder has
/// one there.
pub fn entry_len(write: &Write) -> u32
    requires rules { IsTrue (keeps_rules write.now.kind) }
    ensures entry { result ≡ length (write_spelling write.now) }
    ensures form { result ≡ length (queue_form write.now) }
    ensures short { result ≤ longest_entry }
{
    BEFORE_IMAGE as u32 + fields_len(&write.kind) as u32
}

/// The part of the queue form before the fields of the kind.
fn form_head(write: &Write) -> [u8; BEFORE_IMAGE]
    ensures { result ≡ tag_of write.now.kind ∷ [] ++ to_be_bytes w64 write.now.stamp.0 ++ to_be_bytes w16 write.now.volume ++ to_be_bytes w32 write.now.track }
{
    let mut head = [0; BEFORE_IMAGE];
    head[0] = write.kind.tag();
    BigEndian::write_u64(&mut head[1..], write.stamp.0);
    BigEndian::write_u16(&mut head[9..], write.volume);
    BigEndian::write_u32(&mut head[11..], write.track);
    head
}

/// An update's number, and the count of its bytes.
fn update_head(number: u8, count: usize) -> [u8; 3]
    requires { count < 2 ^ 16 }
    ensures { result ≡ number ∷ to_be_bytes w16 count }
{
    let mut head = [number, 0, 0];
    BigEndian::write_u16(&mut head[1..], count as u16);
    head
}

/// Puts the fields of a kind after other bytes. Want of memory may leave a part of them there.
fn append_fields(alloc: Global, out: &mut Bytes, kind: &Kind) -> Result<(), NoMemory>
    requires rules { IsTrue (keeps_rules kind.now) }
    ensures ok { OnOk result (out.new ≡ out.old ++ kind_spelling kind.now) }
    ensures kept { take (length out.old) out.new ≡ out.old }
{
    match kind {
        Kind::Update { number, bytes } => {
            out.extend_from_slice(alloc, &update_head(*number, bytes.len()))?;
            out.extend_from_slice(alloc, bytes.as_slice())
        }
        Kind::Format { after, recs } => {
            out.extend_from_slice(alloc, &[*after, recs.len() as u8])?;
            append_records(alloc, out, recs.as_slice())
        }
        Kind::Whole { track } => append_image(alloc, out, track.recs()),
    }
}

impl Kind {
    /// The tag of a write of this kind, in an entry and in a queue form.
    pub fn tag(&self) -> u8
        ensures { result ≡ tag_of self.now }
    {
        match self {
            Kind::Update { .. } => 2,
            Kind::Format { .. } => 3,
            Kind::Whole { .. } => 4,
        }
    }

    /// Puts the fields of the kind, as they follow the track in an entry, after the bytes of `out`.
    pub fn encode_fields(&self, alloc: Global, out: &mut Bytes) -> Result<(), NoMemory>
        requires rules { IsTrue (keeps_rules self.now) }
        ensures ok { OnOk result (out.new ≡ out.old ++ kind_spelling self.now) }
        ensures err { OnErr result (out.new ≡ out.old) }
    {
        let before = out.len();
        let appended = append_fields(alloc, out, self);
        if appended.is_err() {
            out.truncate(before);
        }
        appended
    }
}

/// Puts the fields of a kind at a place, and gives the place after them.
fn put_fields(out: &mut [u8], place: usize, kind: &Kind) -> usize
    requires rules { IsTrue (keeps_rules kind.now) }
    requires room { place + length (kind_spelling kind.now) ≤ length out.old }
    ensures bytes { out.new ≡ with_bytes place (kind_spelling kind.now) out.old }
    ensures end { result ≡ place + length (kind_spelling kind.now) }
    ensures kind { IsTrue (is_kind kind.now) }
{
    match kind {
        Kind::Update { number, bytes } => {
            let next = put_bytes(out, place, &update_head(*number, bytes.len()));
            put_bytes(out, next, bytes.as_slice())
        }
        Kind::Format { after, recs } => {
            let next = put_bytes(out, place, &[*after, recs.len() as u8]);
            put_records(out, next, recs.as_slice())
        }
        Kind::Whole { track } => put_image(out, place, track.recs()),
    }
}

/// Puts the write's queue form at the front of `out`, leaves the rest, and gives the form's length, which is `entry_len`.
/// The write then keeps all rules that `Slot::apply_entry` asks for, those of a whole track's records among them.
pub fn put_entry(write: &Write, out: &mut [u8]) -> u32
    requires rules { IsTrue (keeps_rules write.now.kind) }
    requires room { length (queue_form write.now) ≤ length out.old }
    ensures form { out.new ≡ queue_form write.now ++ drop (length (queue_form write.now)) out.old }
    ensures length { result ≡ length (queue_form write.now) }
    ensures kind { IsTrue (is_kind write.now.kind) }
{
    let fields = put_bytes(out, 0, &form_head(write));
    put_fields(out, fields, &write.kind) as u32
}
