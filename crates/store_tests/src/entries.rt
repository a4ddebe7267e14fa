//! Writes as the entries of a group.

ghost use Rattle.std.specs.Prelude.{◌≡◌};

use ckd_track::{Batch, Kind, Rec, Track, Write, WriteList};
use pending_queue::{Formed, Queue};
use std::alloc::Global;
use std::process::Abort;
use test_fixtures::bytes_of;
use tod_stamp::Stamp;
use xrc_edge::Bytes;

/// An update of record 1.
pub(crate) fn update(rt: &impl Abort, alloc: Global, content: &[u8]) -> Kind {
    Kind::Update {
        number: 1,
        bytes: bytes_of(alloc, content).expect(rt, "memory"),
    }
}

/// Record 1, of two bytes.
fn rec(rt: &impl Abort, alloc: Global, content: &[u8; 2]) -> Rec {
    Rec {
        number: 1,
        key: Bytes::make(alloc),
        content: bytes_of(alloc, content).expect(rt, "memory"),
    }
}

/// A whole track of record 1 alone.
pub(crate) fn whole(rt: &impl Abort, alloc: Global, content: &[u8; 2]) -> Kind {
    let mut track = Track::make(alloc);
    let rec = rec(rt, alloc, content);
    assert!(rt; track.fits(&rec));
    track.push(alloc, rec).expect(rt, "memory");
    Kind::Whole { track }
}

/// Adds the entry of a write to a track of a volume of controller 0, which is popped from a queue with room for one.
pub(crate) fn add(
    rt: &impl Abort,
    alloc: Global,
    formed: &mut Formed,
    at: (u16, u32),
    stamp: u64,
    kind: Kind,
)
    requires { formed.old.controls ≡ 1 }
    ensures { formed.new.controls ≡ 1 }
{
    assert!(rt; kind.keeps_rules());
    let stamp = Stamp(stamp);
    let write = Write {
        volume: at.0,
        track: at.1,
        stamp,
        kind,
    };
    let mut writes = WriteList::make(alloc);
    writes.push(alloc, write).expect(rt, "memory");
    let batch = Batch {
        control: 0,
        writes,
        upto: stamp,
    };
    let mut queue = Queue::make(alloc, 0, 1, 200).expect(rt, "memory");
    queue.push_all(&batch).expect(rt, "room");
    assert!(rt; formed.count() < 32 && queue.free().records <= 1);
    queue.pop_upto(stamp, formed);
}

/// The longest track: one record of equal bytes.
pub(crate) fn longest(rt: &impl Abort, alloc: Global, byte: u8) -> Kind {
    let mut content = Bytes::make(alloc);
    content
        .extend_from_slice(alloc, &[byte; 56_656])
        .expect(rt, "memory");
    let rec = Rec {
        number: 1,
        key: Bytes::make(alloc),
        content,
    };
    let mut track = Track::make(alloc);
    assert!(rt; track.fits(&rec));
    track.push(alloc, rec).expect(rt, "memory");
    Kind::Whole { track }
}
