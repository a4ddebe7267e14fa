//! Bodies that are filled to their last byte, a new job, and walks near a journal's end.

use crate::fixtures::assert_same;
use crash_plant::{Device, PlainDisk, Plant, Spot};
use std::alloc::Global;
use std::process::Abort;
use test_fixtures::{put, zeros};
use tod_stamp::Stamp;
use xrc_journal::{Body, VolumeJob, WalkError, Walked, walk};

/// These are the bytes of a body.
fn assert_bytes(rt: &impl Abort, body: &Body, expected: &[u8]) {
    assert_same(rt, &body.bytes(), &expected, &"the body");
}

#[test]
fn a_body_is_filled_to_its_last_byte(rt: HostRuntime) {
    let alloc = rt.alloc();
    let mut body = Body::make(alloc, 6).expect(&rt, "memory");
    body.put_gone(0x0102);
    body.put_gone(0xfffe);
    assert_bytes(&rt, &body, &[4, 1, 2, 4, 0xff, 0xfe]);
    body.clear();
    assert_bytes(&rt, &body, &[]);
    body.put_gone(9);
    assert_bytes(&rt, &body, &[4, 0, 9]);
    let empty = Body::make(alloc, 0).expect(&rt, "memory");
    assert_bytes(&rt, &empty, &[]);
}

#[test]
fn a_job_begins_without_its_volume(rt: HostRuntime) {
    let job = VolumeJob::<PlainDisk>::make(rt.alloc(), 7).expect(&rt, "memory");
    let found = (job.device, job.disk.is_none(), job.failed);
    assert_same(&rt, &found, &(7, true, false), &"the job");
    assert_same(&rt, &job.slot.bytes(), &[0, 0].as_slice(), &"its slot");
}

/// The front of record 2, a switch at the time 80.
const SWITCH: [u8; 24] = [
    1, 2, 0, 0, 0, 0, 0, 0, 0, 2, 0, 0, 0, 0, 0, 0, 0, 0x80, 0, 0, 0, 2, 0, 1,
];

/// What a walk answers at a place of a journal of 200 bytes, where these bytes stand.
fn assert_walked(
    rt: &impl Abort,
    alloc: Global,
    place: u64,
    bytes: &[u8],
    expected: Result<Walked, WalkError>,
) {
    let journal = Device::Journal(0);
    let mut plant = zeros(alloc, (2, 200), (0, 0), b"").expect(rt, "memory");
    assert!(rt; put(&mut plant, journal, place, bytes));
    assert!(rt; plant.journals() == 2);
    assert!(rt; plant.length(journal) == 200 && place < 200);
    let mut body = Body::make(alloc, 200).expect(rt, "memory");
    let at = Spot {
        set: 0,
        place,
        number: 2,
    };
    let found = walk(&mut plant, at, Stamp(0x80), &mut body);
    assert_same(rt, &found, &expected, &place);
}

/// A record that is cut by the journal's end is damaged at its gate. A gate that isn't open ends the journal there too.
#[test]
fn a_record_that_is_cut_is_damaged_at_its_gate(rt: HostRuntime) {
    let alloc = rt.alloc();
    for cut in [23, 22, 21, 1] {
        let place = 200 - cut as u64;
        let damaged = Err(WalkError::Damaged(0, place));
        assert_walked(&rt, alloc, place, &SWITCH[..cut], damaged);
        assert_walked(&rt, alloc, place, &[], Ok(Walked::End));
    }
}
