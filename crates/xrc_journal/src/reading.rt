//! The items of a body one after another, for those who go over them.

ghost use Rattle.std.specs.Prelude.{◌≡◌, ◌≢◌, ℕ, List, length, slice_index, IsTrue};
ghost use Rattle.tod_stamp.specs.Fields.{is_version};
ghost use Rattle.xrc_journal.specs.Items.{Item, Earlier, anywhere, are_items_after, item_spelling, body_spelling, pair_tag};
ghost use Rattle.pair_table.specs.declared.row.PairRow.{PairRow as RowValue};
ghost use Rattle.xrc_journal.specs.Items.Item.{Gone, Pair};
ghost use Rattle.xrc_journal.specs.Bodies.{BeginsWith, BeginsWithItem};
ghost use Rattle.xrc_journal.specs.Views.{AreItemBytes, told, first_told};

use crate::item::row_item;
use crate::layout::{IMAGE_FRONT, NARROW_ROW_ITEM, ROW_ITEM};
use byteorder::{BigEndian, ByteOrder};
use ckd_track::image_length;
use pair_table::{PairRow, decode_row_of};

/// An item of a body. The image of a track stands in the bytes after `IMAGE_FRONT`, up to the item's end.
#[derive(Clone, Copy, Debug, PartialEq, Eq)]
pub enum BodyItem {
    /// A whole track of a device.
    Image { device: u16, track: u32 },
    /// A pair's row, in either version.
    Pair(PairRow),
    /// A device whose row goes.
    Gone { device: u16 },
}

/// The image that the bytes begin with.
fn image(bytes: &[u8]) -> (BodyItem, usize)
    requires item { BeginsWithItem bytes.now }
    requires tag { slice_index bytes.now 0 ≡ 1 }
    ensures { (item : Item) → BeginsWith bytes.now item → result ≡ (told item, length (item_spelling item)) }
{
    let device = BigEndian::read_u16(&bytes[1..3]);
    let track = BigEndian::read_u32(&bytes[3..7]);
    match image_length(&bytes[IMAGE_FRONT..]) {
        Ok(length) => (BodyItem::Image { device, track }, IMAGE_FRONT + length),
        Err(_) => unreachable!(),
    }
}

/// The pair of a version that the bytes begin with.
fn pair(version: u8, bytes: &[u8]) -> PairRow
    requires item { BeginsWithItem bytes.now }
    requires version { IsTrue (is_version version) }
    requires tag { slice_index bytes.now 0 ≡ pair_tag version }
    ensures { (row : RowValue) → BeginsWith bytes.now (Pair version row) → result ≡ row }
{
    match decode_row_of(version, &bytes[1..row_item(version)]) {
        Some(row) => row,
        None => unreachable!(),
    }
}

/// The device of the item that the bytes begin with, whose row goes.
fn gone(bytes: &[u8]) -> u16
    requires item { BeginsWithItem bytes.now }
    requires image { slice_index bytes.now 0 ≢ 1 }
    requires narrow { slice_index bytes.now 0 ≢ 3 }
    requires pair { slice_index bytes.now 0 ≢ 5 }
    ensures { (device : ℕ) → BeginsWith bytes.now (Gone device) → result ≡ device }
{
    BigEndian::read_u16(&bytes[1..3])
}

/// The item that bytes of a body begin with, and its length. None exactly where there are no bytes.
pub fn first_item(bytes: &[u8]) -> Option<(BodyItem, usize)>
    requires { AreItemBytes bytes.now }
    ensures item { (earlier : Earlier) (items : List Item) → IsTrue (are_items_after anywhere earlier items) → bytes.now ≡ body_spelling items → result ≡ first_told items }
{
    if bytes.is_empty() {
        return None;
    }
    match bytes[0] {
        1 => Some(image(bytes)),
        3 => Some((BodyItem::Pair(pair(1, bytes)), NARROW_ROW_ITEM)),
        5 => Some((BodyItem::Pair(pair(2, bytes)), ROW_ITEM)),
        _ => Some((
            BodyItem::Gone {
                device: gone(bytes),
            },
            3,
        )),
    }
}
