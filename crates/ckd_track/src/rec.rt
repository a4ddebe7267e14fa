//! A record of a track, and copies of records.

ghost use Rattle.std.specs.Prelude.{◌≡◌, length, IfOk};
ghost use Rattle.ckd_track.specs.Effects.{fitted};

use crate::places::fill_content;
use std::alloc::Global;
use xrc_edge::{Bytes, List, NoMemory};

/// A record: its number, its key, which may be empty, and its content.
#[derive(Debug, Drop)]
pub struct Rec {
    pub number: u8,
    pub key: Bytes,
    pub content: Bytes,
}

/// Records in order.
pub type RecList = List<Rec>;

/// A copy of bytes.
pub fn copied_bytes(alloc: Global, bytes: &[u8]) -> Result<Bytes, NoMemory>
    ensures { IfOk result (λ copy. copy ≡ bytes.now) }
{
    let mut copy = Bytes::make(alloc);
    copy.extend_from_slice(alloc, bytes)?;
    Ok(copy)
}

/// Fills a content with bytes, and with zeros after them, in its own memory. What has no room is left out.
pub fn refilled(content: Bytes, bytes: &[u8]) -> Bytes
    ensures { result ≡ fitted (length content) bytes.now }
{
    let mut items = content.into_vec();
    fill_content(items.as_mut_slice(), bytes);
    Bytes::of(items)
}

fn copied_record(alloc: Global, rec: &Rec) -> Result<Rec, NoMemory>
    ensures { IfOk result (λ copy. copy ≡ rec.now) }
{
    Ok(Rec {
        number: rec.number,
        key: copied_bytes(alloc, rec.key.as_slice())?,
        content: copied_bytes(alloc, rec.content.as_slice())?,
    })
}

/// A copy of records.
pub fn copied_records(alloc: Global, recs: &[Rec]) -> Result<Vec<Rec>, NoMemory>
    ensures { IfOk result (λ copy. copy.items ≡ recs.now) }
{
    let mut copy = Vec::new(alloc);
    for rec in recs {
        copy.push(copied_record(alloc, rec)?)?;
    }
    Ok(copy)
}
