//! An assertion, bytes, writes, batches and slots that several tests name.

ghost use Rattle.std.specs.Prelude.{◌≡◌, ◌∷◌, [], length, replicate};
ghost use Rattle.group_tests.specs.CutVectors.{whole_on};
ghost use Rattle.group_tests.specs.StateVectors.{batch};

use ckd_track::{Batch, Kind, Rec, Slot, Track, Write, WriteList};
use std::alloc::Global;
use std::fmt::Debug;
use std::process::Abort;
use test_fixtures::bytes_of;
use tod_stamp::Stamp;
use xrc_edge::Bytes;

/// What was found is what was expected. The message names the case.
pub fn assert_same<T: PartialEq + Debug>(
    rt: &impl Abort,
    found: &T,
    expected: &T,
    case: &impl Debug,
) {
    assert_eq!(rt; found, expected, "{case:?}");
}

/// So many bytes of 7.
pub fn filled(rt: &impl Abort, alloc: Global, count: usize) -> Bytes
    ensures bytes { result ≡ replicate count 7 }
    ensures length { length result ≡ count }
{
    let sevens = vec![in alloc; 7u8; count].expect(rt, "memory");
    bytes_of(alloc, &sevens).expect(rt, "memory")
}

/// A write on volume 0 that empties the track.
pub fn whole(alloc: Global, track: u32, stamp: u64) -> Write
    ensures { result ≡ whole_on track stamp }
{
    Write {
        volume: 0,
        track,
        stamp: Stamp(stamp),
        kind: Kind::Whole {
            track: Track::make(alloc),
        },
    }
}

/// A batch of one write.
pub fn batch_of(rt: &impl Abort, alloc: Global, control: u16, write: Write, upto: u64) -> Batch
    ensures { result ≡ batch control (write ∷ []) upto }
{
    let mut writes = WriteList::make(alloc);
    writes.push(alloc, write).expect(rt, "memory");
    Batch {
        control,
        writes,
        upto: Stamp(upto),
    }
}

/// A batch of one write that empties a track.
pub fn one_write(
    rt: &impl Abort,
    alloc: Global,
    control: u16,
    track: u32,
    stamp: u64,
    upto: u64,
) -> Batch
    ensures { result ≡ batch control (whole_on track stamp ∷ []) upto }
{
    batch_of(rt, alloc, control, whole(alloc, track, stamp), upto)
}

/// A track of one record of so many bytes.
pub fn track_of_one(rt: &impl Abort, alloc: Global, count: usize) -> Track
    ensures { result ≡ record { number = 1; key = []; content = replicate count 7 } ∷ [] }
{
    let rec = Rec {
        number: 1,
        key: Bytes::make(alloc),
        content: filled(rt, alloc, count),
    };
    let mut track = Track::make(alloc);
    assert!(rt; track.fits(&rec));
    track.push(alloc, rec).expect(rt, "memory");
    track
}

/// A slot with such a track.
pub fn slot_of_one(rt: &impl Abort, alloc: Global, count: usize) -> Slot
    ensures { result ≡ record { number = 1; key = []; content = replicate count 7 } ∷ [] }
{
    let track = track_of_one(rt, alloc, count);
    let mut slot = Slot::make(alloc).expect(rt, "memory");
    slot.set(&track);
    slot
}
