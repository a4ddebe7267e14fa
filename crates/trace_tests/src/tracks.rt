//! Refused images with their faults, what fits on a track, and what a slot does with writes, their queue forms and deltas.

use crate::fixtures::{filled, listed};
use ckd_track::{ImageError, Kind, Rec, RecList, Slot, Track, Write, entry_len, put_entry};
use std::alloc::Global;
use std::process::Abort;
use tod_stamp::Stamp;

/// The image of one record 1 without key, with content `AB`.
const ONE_RECORD: [u8; 8] = *b"\0\x01\x01\0\0\x02AB";

fn loaded(rt: &impl Abort, alloc: Global, image: &[u8]) -> Slot {
    let mut slot = Slot::make(alloc).expect(rt, "memory");
    assert_eq!(rt; slot.load(image), Ok(image.len()));
    slot
}

fn refuses(rt: &impl Abort, alloc: Global, bytes: &[u8], error: ImageError) {
    let refused = Track::decode_image(alloc, bytes).err();
    assert_eq!(rt; refused, Some(error), "{bytes:?}");
    let mut slot = loaded(rt, alloc, &ONE_RECORD);
    assert_eq!(rt; slot.load(bytes), Err(error), "{bytes:?}");
    assert_eq!(rt; slot.bytes(), [0, 0].as_slice());
}

#[test]
fn refused_images(rt: HostRuntime) {
    let cases = [
        (b"\0".as_slice(), ImageError::Short),
        (b"\0\x01\x01\0\0\x02A", ImageError::Short),
        (b"\0\x01\x01\x02\0\0K", ImageError::Short),
        (b"\0\x01\0\0\0", ImageError::Short),
        (b"\0\x01\0\0\0\0", ImageError::Order(2)),
        (b"\0\x01\0\0\xDD\x51", ImageError::Order(2)),
        (b"\0\x02\x02\0\0\0\x01\0\0\0", ImageError::Order(6)),
        (b"\0\x01\x01\0\xDD\x51", ImageError::TooBig),
        (b"\x01\0", ImageError::Order(0)),
    ];
    for (bytes, error) in cases {
        refuses(&rt, rt.alloc(), bytes, error);
    }
}

/// A record whose key and content have that many bytes.
fn record(rt: &impl Abort, alloc: Global, number: u8, key: usize, content: usize) -> Rec {
    Rec {
        number,
        key: filled(rt, alloc, key),
        content: filled(rt, alloc, content),
    }
}

fn assert_fits(rt: &impl Abort, track: &Track, rec: &Rec, fits: bool) {
    assert!(rt; track.fits(rec) == fits, "record {}", rec.number);
}

#[test]
fn records_fit_in_order_up_to_the_capacity(rt: HostRuntime) {
    let alloc = rt.alloc();
    let mut track = Track::make(alloc);
    for (number, key, content) in [(0, 0, 0), (1, 256, 0), (1, 0, 56_657)] {
        let rec = record(&rt, alloc, number, key, content);
        assert_fits(&rt, &track, &rec, false);
    }
    let first = record(&rt, alloc, 1, 255, 49_745);
    assert!(rt; track.fits(&first));
    track.push(alloc, first).expect(&rt, "memory");
    for (number, content, fits) in [(1, 0, false), (2, 6_648, true), (2, 6_649, false)] {
        let rec = record(&rt, alloc, number, 0, content);
        assert_fits(&rt, &track, &rec, fits);
    }
}

/// A format after record 1 by record 2 with content `Q`, and a key of that many bytes.
fn format(rt: &impl Abort, alloc: Global, key: usize) -> Kind {
    let mut recs = RecList::make(alloc);
    let rec = Rec {
        number: 2,
        key: filled(rt, alloc, key),
        content: listed(rt, alloc, b"Q"),
    };
    recs.push(alloc, rec).expect(rt, "memory");
    Kind::Format { after: 1, recs }
}

fn update(rt: &impl Abort, alloc: Global, number: u8, length: usize) -> Kind {
    Kind::Update {
        number,
        bytes: filled(rt, alloc, length),
    }
}

#[test]
fn kinds_keep_the_rules_or_not(rt: HostRuntime) {
    let alloc = rt.alloc();
    for (number, length, keeps) in [(1, 56_656, true), (1, 56_657, false), (0, 1, false)] {
        assert!(rt; update(&rt, alloc, number, length).keeps_rules() == keeps);
    }
    for (key, keeps) in [(255, true), (256, false)] {
        assert!(rt; format(&rt, alloc, key).keeps_rules() == keeps);
    }
}

/// A slot with one record is so after a write of this kind to track 3 at 6E. The write's queue form is these bytes, and what follows
/// them stays.
fn assert_write(rt: &impl Abort, alloc: Global, kind: Kind, after: &[u8], form: &[u8]) {
    let (volume, track, stamp) = (0, 3, Stamp(0x6E));
    let write = Write {
        volume,
        track,
        stamp,
        kind,
    };
    assert!(rt; write.kind.keeps_rules());
    let mut slot = loaded(rt, alloc, &ONE_RECORD);
    slot.apply(&write);
    assert!(rt; slot.bytes() == after);
    let length = entry_len(&write) as usize;
    let mut out = [0xEE; 30];
    assert!(rt; length <= out.len());
    assert_eq!(rt; put_entry(&write, &mut out) as usize, length);
    let (front, rest) = out.split_at(length);
    assert!(rt; front == form && rest.iter().all(|byte| *byte == 0xEE));
}

#[test]
fn writes_are_done_and_have_their_queue_forms(rt: HostRuntime) {
    let alloc = rt.alloc();
    let form = b"\x02\0\0\0\0\0\0\0\x6E\0\0\0\0\0\x03\x01\0\x01Z";
    assert_write(
        &rt,
        alloc,
        update(&rt, alloc, 1, 1),
        b"\0\x01\x01\0\0\x02Z\0",
        form,
    );
    let after = b"\0\x02\x01\0\0\x02AB\x02\x01\0\x01ZQ";
    let form = b"\x03\0\0\0\0\0\0\0\x6E\0\0\0\0\0\x03\x01\x01\x02\x01\0\x01ZQ";
    assert_write(&rt, alloc, format(&rt, alloc, 1), after, form);
    let image = b"\0\x01\x07\x01\0\x01KZ";
    let (track, _) = Track::decode_image(alloc, image).expect(&rt, "an image");
    let form = b"\x04\0\0\0\0\0\0\0\x6E\0\0\0\0\0\x03\0\x01\x07\x01\0\x01KZ";
    assert_write(&rt, alloc, Kind::Whole { track }, image, form);
}

#[test]
fn deltas_are_applied(rt: HostRuntime) {
    let mut slot = loaded(&rt, rt.alloc(), &ONE_RECORD);
    slot.apply_delta(&[2, 1, 0, 1, 0x5A]);
    assert_eq!(rt; slot.bytes(), b"\0\x01\x01\0\0\x02Z\0".as_slice());
    slot.apply_delta(&[3, 1, 1, 2, 0, 0, 1, 0x51]);
    assert_eq!(rt;
        slot.bytes(),
        b"\0\x02\x01\0\0\x02Z\0\x02\0\0\x01Q".as_slice()
    );
}
