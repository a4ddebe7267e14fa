//! Items of a body that is read.

ghost use Rattle.std.specs.Prelude.{◌≡◌, ◌≤◌, ◌+◌, ◌∷◌, ℕ, length, IfSome, IsTrue};
ghost use Rattle.crash_plant.specs.Calls.{NoneLent};
ghost use Rattle.pair_table.specs.Rows.{row_length};
ghost use Rattle.xrc_journal.specs.Items.{Item, earlier_after, form_of, is_within, may_draw};
ghost use Rattle.xrc_journal.specs.Reading.{gone_item_at, image_item_at, item_at, pair_item_at};
ghost use Rattle.xrc_journal.specs.Bodies.{BeginsWith, GoodFront, IsBody, are_late, earlier_of, items_of};
ghost use Rattle.xrc_journal.specs.Drawn.{AreDrawn, device_and_track};
ghost use Rattle.xrc_journal.specs.Answers.{length_of};

use crate::drawn::DrawnTracks;
use crate::layout::{IMAGE_FRONT, NARROW_ROW_ITEM, ROW_ITEM, TRACK};
use byteorder::{BigEndian, ByteOrder};
use ckd_track::{SLOT_LENGTH, slot_place};
use crash_plant::{Device, Plant};
use pair_table::{decode_row_of, row_length};
use std::alloc::Global;

/// Whether a device of that length has the whole slot of a track.
fn is_within(length: u64, track: u32) -> bool
    ensures { result ≡ is_within length track }
{
    slot_place(track) + SLOT_LENGTH as u64 <= length
}

/// Whether the track's whole slot lies in the volume of that number.
pub(crate) fn has_slot<P: Plant>(plant: &P, device: u16, track: u32) -> bool
    requires home { NoneLent (P.state plant.now) }
    ensures { let form = form_of (P.state plant.now) in result ≡ form.has_slot device track }
{
    device < plant.volumes() && is_within(plant.length(Device::Volume(device)), track)
}

/// The bytes of an item of a row of a version.
pub(crate) fn row_item(version: u8) -> usize
    ensures { result ≡ 1 + row_length version }
{
    if version == 1 {
        NARROW_ROW_ITEM
    } else {
        ROW_ITEM
    }
}

/// The length of a pair's item of a version with these fields after its tag.
pub(crate) fn pair_length(version: u8, fields: &[u8]) -> Option<usize>
    ensures { (place : ℕ) → result ≡ length_of (pair_item_at version (record { place = place; bytes = fields.now })) }
{
    let length = row_length(version);
    if fields.len() < length {
        return None;
    }
    match decode_row_of(version, &fields[..length]) {
        Some(_) => Some(row_item(version)),
        None => None,
    }
}

/// The length of the item of a device whose row goes, with these fields after its tag.
pub(crate) fn gone_length(fields: &[u8]) -> Option<usize>
    ensures { (place : ℕ) → result ≡ length_of (gone_item_at (record { place = place; bytes = fields.now })) }
{
    if fields.len() < 2 { None } else { Some(3) }
}

/// Whether an image of a track may follow the items of a body. If so, the track is drawn from then on.
fn may_draw<P: Plant>(
    plant: &P,
    drawn: &mut DrawnTracks,
    body: &[u8],
    device: u16,
    track: u32,
) -> bool
    requires home { NoneLent (P.state plant.now) }
    requires body { IsBody body.now }
    requires known { AreDrawn drawn.old (earlier_of body.now).drawn }
    ensures may { result ≡ may_draw (form_of (P.state plant.now)) (earlier_of body.now) device track }
    ensures known { IsTrue result → AreDrawn drawn.new ((device, track) ∷ (earlier_of body.now).drawn) }
{
    has_slot(plant, device, track) && drawn.take(body, device, track)
}

/// The length of an image's item with these fields after its tag, which stands after the items of a body.
fn image_length<P: Plant>(
    plant: &P,
    drawn: &mut DrawnTracks,
    body: &[u8],
    fields: &[u8],
) -> Option<usize>
    requires home { NoneLent (P.state plant.now) }
    requires body { IsBody body.now }
    requires known { AreDrawn drawn.old (earlier_of body.now).drawn }
    ensures length { (place : ℕ) → result ≡ length_of (image_item_at (form_of (P.state plant.now)) (earlier_of body.now) (record { place = place; bytes = fields.now })) }
    ensures known { IfSome result (λ length. AreDrawn drawn.new (device_and_track fields.now ∷ (earlier_of body.now).drawn)) }
{
    if fields.len() < TRACK {
        return None;
    }
    let device = BigEndian::read_u16(&fields[..2]);
    let track = BigEndian::read_u32(&fields[2..6]);
    if !may_draw(plant, drawn, body, device, track) {
        return None;
    }
    match ckd_track::image_length(&fields[TRACK..]) {
        Ok(length) => Some(IMAGE_FRONT + length),
        Err(_) => None,
    }
}

/// The length of the item that the bytes begin with, which stands after the items of a body. `late` says whether one of those
/// is of a row, and `drawn` which tracks have an image there. None where it breaks a rule.
pub(crate) fn item_length<P: Plant>(
    plant: &P,
    drawn: &mut DrawnTracks,
    body: &[u8],
    late: bool,
    bytes: &[u8],
) -> Option<usize>
    requires home { NoneLent (P.state plant.now) }
    requires body { IsBody body.now }
    requires known { AreDrawn drawn.old (earlier_of body.now).drawn }
    requires late { late ≡ are_late (items_of body.now) }
    requires some { 1 ≤ length bytes.now }
    ensures length { (place : ℕ) → result ≡ length_of (item_at (form_of (P.state plant.now)) (earlier_of body.now) (record { place = place; bytes = bytes.now })) }
    ensures known { IfSome result (λ length. (item : Item) → BeginsWith bytes.now item → AreDrawn drawn.new (earlier_after item (earlier_of body.now)).drawn) }
{
    let (tag, fields) = bytes.split_at(1);
    match tag[0] {
        1 if late => None,
        1 => image_length(plant, drawn, body, fields),
        3 => pair_length(1, fields),
        4 => gone_length(fields),
        5 => pair_length(2, fields),
        _ => None,
    }
}

/// How many bytes at the front of a body are items that keep their rules, up to the first that doesn't.
pub(crate) fn good_length<P: Plant>(plant: &P, alloc: Global, bytes: &[u8]) -> usize
    requires home { NoneLent (P.state plant.now) }
    ensures { GoodFront (form_of (P.state plant.now)) bytes.now result }
{
    let mut drawn = DrawnTracks::make(alloc);
    let mut good = 0;
    let mut late = false;
    while good < bytes.len() {
        let (body, rest) = bytes.split_at(good);
        let Some(length) = item_length(plant, &mut drawn, body, late, rest) else {
            return good;
        };
        late = rest[0] != 1;
        good += length;
    }
    good
}
