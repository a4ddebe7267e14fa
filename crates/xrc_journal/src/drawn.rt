//! The tracks that have an image among the items of a body.

ghost use Rattle.std.specs.Prelude.{◌≡◌, ◌∷◌, [], length, not, true};
ghost use Rattle.xrc_journal.specs.Items.{Item, item_spelling};
ghost use Rattle.xrc_journal.specs.Bodies.{BeginsWith, BeginsWithItem, IsBody, draws, earlier_of, have_image, items_of};
ghost use Rattle.xrc_journal.specs.Drawn.{AreDrawn};

use crate::layout::{IMAGE_FRONT, NARROW_ROW_ITEM, ROW_ITEM};
use byteorder::{BigEndian, ByteOrder};
use std::alloc::Global;
use std::collections::BTreeSet;

/// The tracks that have an image among the items of a body so far. A body may have millions, in any order, so they are kept
/// sorted. If there is no memory for one, the set is given up, and the items themselves are looked through from then on.
#[derive(Drop)]
pub(crate) struct DrawnTracks {
    tracks: BTreeSet<(u16, u32)>,
    given_up: bool,
}

/// The length of the item that the bytes begin with.
fn first_length(bytes: &[u8]) -> usize
    requires { BeginsWithItem bytes.now }
    ensures { (item : Item) → BeginsWith bytes.now item → result ≡ length (item_spelling item) }
{
    match bytes[0] {
        1 => match ckd_track::image_length(&bytes[IMAGE_FRONT..]) {
            Ok(length) => IMAGE_FRONT + length,
            Err(_) => unreachable!(),
        },
        3 => NARROW_ROW_ITEM,
        5 => ROW_ITEM,
        _ => 3,
    }
}

/// Whether the item that the bytes begin with is an image of a track.
fn draws(bytes: &[u8], device: u16, track: u32) -> bool
    requires { BeginsWithItem bytes.now }
    ensures { (item : Item) → BeginsWith bytes.now item → result ≡ draws device track item }
{
    bytes[0] == 1
        && BigEndian::read_u16(&bytes[1..3]) == device
        && BigEndian::read_u32(&bytes[3..7]) == track
}

/// Whether an image of a track is among the items of a body.
fn has_image(body: &[u8], device: u16, track: u32) -> bool
    requires { IsBody body.now }
    ensures { result ≡ have_image (items_of body.now) device track }
{
    let mut rest = body;
    while !rest.is_empty() {
        if draws(rest, device, track) {
            return true;
        }
        let (_, after) = rest.split_at(first_length(rest));
        rest = after;
    }
    false
}

impl DrawnTracks {
    /// No tracks. It takes no memory.
    pub(crate) fn make(alloc: Global) -> DrawnTracks
        ensures { AreDrawn result [] }
    {
        DrawnTracks {
            tracks: BTreeSet::new(alloc),
            given_up: false,
        }
    }

    /// Whether no item of a body is an image of this track, which is drawn from then on.
    pub(crate) fn take(&mut self, body: &[u8], device: u16, track: u32) -> bool
        requires body { IsBody body.now }
        requires known { AreDrawn self.old (earlier_of body.now).drawn }
        ensures first { result ≡ not (have_image (items_of body.now) device track) }
        ensures known { AreDrawn self.new ((device, track) ∷ (earlier_of body.now).drawn) }
    {
        if !self.given_up {
            match self.tracks.insert((device, track)) {
                Ok(added) => return added,
                Err(_) => self.give_up(),
            }
        }
        !has_image(body, device, track)
    }

    fn give_up(&mut self)
        ensures { self.new.given_up ≡ true }
    {
        self.tracks.clear();
        self.given_up = true;
    }
}
