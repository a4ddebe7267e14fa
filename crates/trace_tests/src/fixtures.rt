//! Bytes, names and sources that tests start from.

ghost use Rattle.std.specs.Prelude.{◌<◌};

use std::alloc::Global;
use std::process::Abort;
use tod_stamp::Serial;
use xrc_edge::{Bytes, MemorySource};

/// The trace of one volume of one cylinder: the whole of track 3 at 64, with record 1 of content `AB`, and an update of it at 6E.
pub const TRACE: [u8; 60] =
    *b"XTR1\0\x01PRIM01\0\x01\0\0\0\0\x04\0\0\0\0\0\0\0\x64\0\0\0\0\0\x03\0\x01\x01\0\0\x02AB\x02\0\0\0\0\0\0\0\x6E\0\0\0\0\0\x03\x01\0\x01Z";

pub fn serial(rt: &impl Abort, name: &[u8]) -> Serial {
    Serial::read(name).expect(rt, "a serial")
}

pub fn append(rt: &impl Abort, alloc: Global, out: &mut Bytes, bytes: &[u8]) {
    out.extend_from_slice(alloc, bytes).expect(rt, "memory");
}

pub fn listed(rt: &impl Abort, alloc: Global, bytes: &[u8]) -> Bytes {
    let mut list = Bytes::make(alloc);
    append(rt, alloc, &mut list, bytes);
    list
}

pub fn filled(rt: &impl Abort, alloc: Global, length: usize) -> Bytes {
    let bytes = vec![in alloc; 0x5Au8; length].expect(rt, "memory");
    listed(rt, alloc, &bytes)
}

/// A source that gives at most `most` of these bytes at once, where the marked pulls fail.
pub fn source(rt: &impl Abort, alloc: Global, bytes: &[u8], most: u32, fails: &[u8]) -> MemorySource
    requires { 0 < most }
{
    let (bytes, fails) = (listed(rt, alloc, bytes), listed(rt, alloc, fails));
    MemorySource::make(alloc, bytes, most, fails).expect(rt, "memory")
}
